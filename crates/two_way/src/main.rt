// Reads a key from standard input, and prints for each hash type whether the two directions of every
// conversation have one hash, or `refused 8`.
#![tactic(auto)]

// Where the key comes from.
const STDIN: i32 = 0;

// One octet more than a key, to tell one that is too long.
const ROOM: usize = toeplitz::KEY_LENGTH + 1;

fn main() {
    let mut buffer = [0u8; ROOM];
    let n = io::read_full(STDIN, &mut buffer);
    answer_lines::two_way_text(&buffer[..n]).print();
}
