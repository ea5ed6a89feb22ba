// What the test programs make of the bodies of cases, a page's octets and a mapping's entries, and what their lines are made of.
#![tactic(auto)]

mod buffer;
mod entries;
mod print;

pub use buffer::{BUFFER, fill, patch};
pub use entries::{MAX_GIVEN, entries_in};
pub use print::{digest, print_form, print_number, print_word};
