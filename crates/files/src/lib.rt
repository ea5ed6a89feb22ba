// Files that a program reads whole.
#![tactic(auto)]

ghost use Rattle.io.specs.Counts.{IsPrefixLen};
ghost use Rattle.std.specs.Prelude.{◌≤◌, length};

use std::fs;
use std::io::Read;
use std::rt::Files;

// Reads the file into the buffer, as far as there is room, and answers how many octets were read. No file counts as an
// empty one.
pub fn read<R: Files>(rt: &R, name: &[u8], buffer: &mut [u8]) -> usize
    ensures { IsPrefixLen result buffer.new }
{
    let Some(mut file) = open(rt, name) else {
        return 0;
    };
    read_full(&mut file, buffer)
}

// The file with this name, if there is one.
fn open<R: Files>(rt: &R, name: &[u8]) -> Option<R::File> {
    let path = std::str::from_utf8(name).ok()?;
    fs::open(rt, path).ok()
}

// Reads until the buffer is full, the file ends or a read fails, and answers how many octets it put at the start, which
// `read_exact` does not tell where the file ends first.
fn read_full<F: Read>(file: &mut F, buffer: &mut [u8]) -> usize
    ensures { result ≤ length buffer.new }
{
    let mut done: usize = 0;
    while done < buffer.len() {
        let Ok(n) = file.read(&mut buffer[done..]) else {
            break;
        };
        if n == 0 {
            break;
        }
        done += n;
    }
    done
}
