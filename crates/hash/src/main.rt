// Reads 40 key octets and then a hash input from standard input, and prints the hash as eight
// hexadecimal digits, or `refused` and a number.
#![tactic(auto)]

// Where the key and the input come from.
const STDIN: i32 = 0;

// One octet more than the longest input, to tell one that is too long.
const ROOM: usize = toeplitz::KEY_LENGTH + toeplitz::MAX_INPUT + 1;

fn main() {
    let mut buffer = [0u8; ROOM];
    let n = io::read_full(STDIN, &mut buffer);
    answer_lines::hash_text(&buffer[..n]).print();
}
