// What the lines of the test programs are made of. They are put together here and not by `println!`, which would hand the runtime
// and an error that no one heeds through every function of the test programs.

// Where printed text goes.
const STDOUT: i32 = 1;

pub fn print_word(word: &[u8]) {
    io::write_all(STDOUT, word);
}

// The decimal digits of a number behind its name.
pub fn print_number(name: &[u8], n: u64) {
    print_word(name);
    io::print_decimal(STDOUT, n);
}

// Prints a line by its form: each `#` stands for the decimal digits of the next number, and each `$` for eight hexadecimal
// digits of it.
pub fn print_form(form: &[u8], numbers: &[u64]) {
    let mut numbers = numbers.iter();
    for part in form.split_inclusive(|octet: &u8| is_mark(*octet)) {
        match part.split_last() {
            Some((mark, word)) if is_mark(*mark) => {
                print_word(word);
                print_next(*mark, numbers.next().copied());
            }
            _ => print_word(part),
        }
    }
}

fn is_mark(octet: u8) -> bool {
    octet == b'#' || octet == b'$'
}

fn print_next(mark: u8, number: Option<u64>) {
    match number {
        Some(n) if mark == b'#' => {
            io::print_decimal(STDOUT, n);
        }
        Some(n) => {
            io::print_hex(STDOUT, n, 8);
        }
        None => {}
    }
}

// A number below 2^32 that depends on every octet and its place, for what is too long for a line.
pub fn digest(octets: &[u8]) -> u64 {
    let sum = octets.iter().fold(0u32, |sum, octet| {
        sum.wrapping_mul(257).wrapping_add(u32::from(*octet) + 1)
    });
    u64::from(sum)
}
