// The files that the test programs run, `cases0`, `cases1` and so on: cases one after the other, none of them in two
// files. A case is its kind, an octet, the length of its body, two octets, and the body.
#![tactic(auto)]

ghost use Rattle.std.specs.Prelude.{◌≡◌, ◌+◌, ◌≤◌, ◌<◌, SomeIff};
ghost use Rattle.octets.specs.Prelude.{length, []};
ghost use Rattle.octets.specs.Numbers.{number_at};
ghost use Rattle.cases.specs.Taking.{no_kind, kind_in, body_in, behind_case};
ghost use Rattle.io.specs.Counts.{IsPrefixLen};

use arrayvec::ArrayVec;
use std::rt::Files;

// A case of a file.
#[derive(Clone, Copy)]
pub struct Case<'a> {
    pub kind: u8,
    pub body: &'a [u8],
}

// The cases of a file, one after the other.
#[derive(Clone, Copy)]
pub struct Cases<'a> {
    pub rest: &'a [u8],
}

impl<'a> Iterator for Cases<'a> {
    type Item = Case<'a>;

    ghost use Rattle.cases.specs.Taking.{Takes, octets_left};
    ghost use Rattle.std.specs.Iterator.{at_most};

    ghost next_gives = { Takes };

    ghost remaining = { λ s. at_most (octets_left s) };

    fn next(&mut self) -> Option<Case<'a>> {
        if self.rest.is_empty() {
            return None;
        }
        let (case, behind) = take_case(self.rest);
        self.rest = behind;
        Some(case)
    }
}

// Where printed text goes.
const STDOUT: i32 = 1;

// Octets before the body.
const HEAD: usize = 3;

// No program has this kind. A case cut short is handed to the program too, since one program says `cut` for it once more.
const NO_KIND: u8 = 255;

// The most files of a program. Each goes over them by a `for` of its own: a closure would have to say what its state keeps.
pub const PARTS: u8 = 10;

// Reads the file with this number behind its name into the buffer, and answers how many octets it has. No file counts as an
// empty one.
pub fn load_part<R: Files>(rt: &R, part: u8, buffer: &mut [u8]) -> usize
    ensures { IsPrefixLen result buffer.new }
{
    if part >= PARTS {
        return 0;
    }
    let name = [b'c', b'a', b's', b'e', b's', b'0' + part];
    files::read(rt, &name, buffer)
}

// The case that the octets begin with, and the octets behind it. One that is cut short is told, and has no kind and no body:
// nothing stands behind it.
fn take_case<'a>(cases: &'a [u8]) -> (Case<'a>, &'a [u8])
    requires { 0 < length cases.now }
    ensures kind { result.0.kind ≡ kind_in cases.now }
    ensures body { result.0.body.now ≡ body_in cases.now }
    ensures behind { result.1.now ≡ behind_case cases.now }
    ensures fewer { length result.1.now < length cases.now }
{
    let Some((head, rest)) = cases.split_first_chunk::<HEAD>() else {
        return cut_case();
    };
    let Some((body, behind)) = rest.split_at_checked(number_at(head, 1)) else {
        return cut_case();
    };
    let kind = head[0];
    (Case { kind, body }, behind)
}

// A case cut short by the end of its file, behind which nothing stands.
fn cut_case<'a>() -> (Case<'a>, &'a [u8])
    ensures { (result.0.kind ≡ no_kind) × (result.0.body.now ≡ []) × (result.1.now ≡ []) }
{
    print_cut();
    (
        Case {
            kind: NO_KIND,
            body: &[],
        },
        &[],
    )
}

// Says that a case is cut short.
pub fn print_cut() {
    io::write_all(STDOUT, b"cut\n");
}

// The number in the two octets from `at` on, the lowest first.
#[tactic(auto, unfolding(octets::specs::Numbers::number_at))]
pub fn number_at(octets: &[u8], at: usize) -> usize
    requires { at + 2 ≤ length octets.now }
    ensures { (result ≡ number_at 2 octets.now at) × (result < 65536) }
{
    usize::from(u16::from_le_bytes([octets[at], octets[at + 1]]))
}

// The number at the start of a body, where it is at most `most`; none where it is cut short or too high.
pub fn number_within(most: usize, body: &[u8]) -> Option<usize>
    ensures { SomeIff result ((2 ≤ length body.now) × (number_at 2 body.now 0 ≤ most)) (number_at 2 body.now 0) }
{
    if body.len() < 2 {
        return None;
    }
    let n = number_at(body, 0);
    (n <= most).then_some(n)
}

// The number at the start of a body, where it is at most `most`. One that is cut short or too high is told, and counts as 0.
pub fn number_up_to(most: usize, body: &[u8]) -> usize
    ensures { result ≤ most }
{
    match number_within(most, body) {
        Some(n) => n,
        None => {
            print_cut();
            0
        }
    }
}

// Copies the body of a case to the start of the buffer, and answers how many octets it has; none where it does not fit.
pub fn keep(buffer: &mut [u8], body: &[u8]) -> usize
    ensures { result ≤ length buffer.new }
{
    let n = body.len();
    if buffer.len() < n {
        print_cut();
        return 0;
    }
    octets::copy(&mut buffer[0..n], body);
    n
}

// Keeps the body of a case in place of what was kept, or nothing where it does not fit. The next case may be in another
// file, so what a program needs again is copied.
pub fn keep_instead<const N: usize>(kept: &mut ArrayVec<u8, N>, body: &[u8])
    ensures fits { length body.now ≤ N → kept.new.items ≡ body.now }
    ensures too_long { N < length body.now → kept.new.items ≡ [] }
{
    kept.clear();
    if kept.try_extend_from_slice(body).is_err() {
        print_cut();
    }
}
