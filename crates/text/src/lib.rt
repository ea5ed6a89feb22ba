// A text that a program prints, put together piece by piece. What is put behind it is the promise of each piece, so that of a
// whole text is one equation.
#![tactic(auto)]

ghost use Rattle.octets.specs.Prelude.{[]};
ghost use Rattle.std.specs.Prelude.{◌≡◌};

use arrayvec::ArrayVec;
use std::marker::Model;

mod line;
mod piece;

// The most octets that a text holds: the lines of a report on 64 queues with room to spare.
pub const CAPACITY: usize = 4608;

// Where printed text goes.
const STDOUT: i32 = 1;

#[derive(Drop)]
pub struct Text {
    octets: ArrayVec<u8, CAPACITY>,
}

impl Model for Text {
    ghost use Rattle.octets.specs.Prelude.{List, ℕ};

    ghost Value = { List ℕ };

    ghost view = { λ t. t.octets.items };
}

impl Text {
    pub fn new() -> Self
        ensures { result ≡ [] }
    {
        Text {
            octets: ArrayVec::new(),
        }
    }

    // The octets of the text.
    pub fn as_slice(&self) -> &[u8]
        ensures { result.now ≡ self.now }
    {
        self.octets.as_slice()
    }

    // Writes the text to standard output.
    pub fn print(&self) -> bool {
        io::write_all(STDOUT, self.as_slice())
    }
}
