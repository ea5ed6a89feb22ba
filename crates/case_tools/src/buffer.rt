// The buffer whose first octets are the page that a case lends, and the cases that put octets into it.
use cases::{number_at, print_cut};

// More octets than a page has, so that a case can lend too many.
pub const BUFFER: usize = 4160;

// The place, and the octets put there.
pub fn patch(buffer: &mut [u8], body: &[u8]) {
    if body.len() < 2 {
        print_cut();
        return;
    }
    let at = number_at(body, 0);
    if buffer.len() < at {
        print_cut();
        return;
    }
    cases::keep(&mut buffer[at..], &body[2..]);
}

// The place, how many octets, and the seed that they are made from.
pub fn fill(buffer: &mut [u8], body: &[u8]) {
    if body.len() < 8 {
        print_cut();
        return;
    }
    let at = number_at(body, 0);
    let end = at + number_at(body, 2);
    if buffer.len() < end {
        print_cut();
        return;
    }
    make(&mut buffer[at..end], octets::read_u32(body, 4));
}

// Octets that differ from each other, so that one at the wrong place is seen.
fn make(part: &mut [u8], seed: u32) {
    let mut x = seed;
    for octet in part {
        x = x.wrapping_mul(1103515245).wrapping_add(12345);
        *octet = (x / 65536 % 256) as u8;
    }
}
