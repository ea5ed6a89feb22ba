// Runs the cases of its files, one file after the other, and prints a line for each answer. A case's body is the length
// of its first part, an octet, and then its two parts.
#![tactic(auto)]

use cases::{Case, Cases, print_cut};

// The kinds, which are octets of the case files: a hash call on a key and an input, a two-way call on a key and a hash type of one octet, and
// what the two programs print for the second part.
const HASH: u8 = 0;

const TWO_WAY: u8 = 1;

const HASH_PROGRAM: u8 = 2;

fn main(rt: HostRuntime) {
    let mut buffer = io::large_buffer();
    for part in 0..cases::PARTS {
        // A file that is not there has no case.
        let n = cases::load_part(&rt, part, &mut buffer);
        run(&buffer[..n]);
    }
}

fn run(cases: &[u8]) {
    for case in (Cases { rest: cases }) {
        split(case);
    }
}

// The two parts of a case.
fn split(case: Case) {
    let Some((length, parts)) = case.body.split_first() else {
        print_cut();
        return;
    };
    let Some((first, second)) = parts.split_at_checked(usize::from(*length)) else {
        print_cut();
        return;
    };
    print_answer(case.kind, first, second);
}

fn print_answer(kind: u8, first: &[u8], second: &[u8]) {
    let text = match kind {
        HASH => answer_lines::hash_line(hashing::hash(first, second)),
        TWO_WAY => answer_lines::verdict_line(directions::two_way(first, hash_type(second))),
        HASH_PROGRAM => answer_lines::hash_text(second),
        _ => answer_lines::two_way_text(second),
    };
    text.print();
}

// A type that is missing counts as 0.
fn hash_type(octets: &[u8]) -> u32 {
    octets.first().map_or(0, |x| u32::from(*x))
}
