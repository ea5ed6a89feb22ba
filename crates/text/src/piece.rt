// The pieces of a line: octets and numbers put behind a text.
ghost use Rattle.std.specs.Prelude.{◌+◌, ◌≤◌};
ghost use Rattle.octets.specs.Prelude.{length};
ghost use Rattle.text.specs.Ascii.{decimal, hex8};
ghost use Rattle.text.specs.Text.{capacity, Adds};

use crate::Text;

impl Text {
    pub fn push_octets(&mut self, octets: &[u8])
        requires { length self.old + length octets.now ≤ capacity }
        ensures { Adds self.old octets.now self.new }
    {
        self.octets.try_extend_from_slice(octets).unwrap();
    }

    // The decimal digits of a number, 20 at most.
    #[tactic(auto, using(crate::proofs::Places::decimal_made))]
    pub fn push_decimal(&mut self, n: u64)
        requires { length self.old + 20 ≤ capacity }
        ensures adds { Adds self.old (decimal n) self.new }
        ensures length_bound { length self.new ≤ length self.old + 20 }
    {
        let mut digits = [0u8; 20];
        let k = io::decimal(n, &mut digits);
        self.push_octets(&digits[..k]);
    }

    // Eight hexadecimal digits.
    #[tactic(auto, using(crate::proofs::Places::hex_made))]
    pub fn push_hex(&mut self, n: u32)
        requires { length self.old + 8 ≤ capacity }
        ensures adds { Adds self.old (hex8 n) self.new }
        ensures length_bound { length self.new ≤ length self.old + 8 }
    {
        let mut digits = [0u8; 16];
        let k = io::hex(u64::from(n), 8, &mut digits);
        self.push_octets(&digits[..k]);
    }
}
