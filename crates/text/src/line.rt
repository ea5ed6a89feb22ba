// One line behind a text.
ghost use Rattle.std.specs.Prelude.{◌+◌, ◌≤◌};
ghost use Rattle.octets.specs.Prelude.{length};
ghost use Rattle.text.specs.Text.{capacity, longest_line, Adds};
ghost use Rattle.text.specs.Lines.{number_line, refusal_line};

use crate::Text;

impl Text {
    // A refusal by its number.
    pub fn push_refusal_line(&mut self, number: u32)
        requires { length self.old + longest_line ≤ capacity }
        ensures adds { Adds self.old (refusal_line number) self.new }
        ensures length_bound { length self.new ≤ length self.old + longest_line }
    {
        self.push_number_line(b"refused ", u64::from(number));
    }

    // A word, a number and the line's end.
    pub fn push_number_line(&mut self, word: &[u8], number: u64)
        requires { (length word.now ≤ 9) × (length self.old + longest_line ≤ capacity) }
        ensures adds { Adds self.old (number_line word.now number) self.new }
        ensures length_bound { length self.new ≤ length self.old + longest_line }
    {
        self.push_octets(word);
        self.push_decimal(number);
        self.push_octets(b"\n");
    }
}
