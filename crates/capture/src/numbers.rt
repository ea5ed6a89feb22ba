// The order of the octets in a capture, and numbers in this order.
ghost use Rattle.std.specs.Prelude.{◌≡◌, ◌+◌, ◌≤◌};
ghost use Rattle.octets.specs.Prelude.{length};
ghost use Rattle.capture.specs.Header.{number_in, order_of};

use crate::{MAGIC, MAGIC_AT, Order};

impl Order {
    // The order in which the capture's magic number was written.
    #[tactic(auto, unfolding(crate::specs::Header::order_of))]
    pub fn of(capture: &[u8]) -> Self
        requires { 4 ≤ length capture.now }
        ensures { result ≡ order_of capture.now }
    {
        if Order::HighFirst.number_at::<4>(capture, MAGIC_AT) == MAGIC {
            Order::HighFirst
        } else {
            Order::LowFirst
        }
    }

    // The number in the N octets from `at` on.
    pub fn number_at<const N: usize>(self, octets: &[u8], at: usize) -> u32
        requires size { N ≤ 4 }
        requires inside { at + N ≤ length octets.now }
        ensures { result ≡ number_in self N octets.now at }
    {
        let number = octets[at..at + N].iter();
        let join = |high: u32, octet: &u8| high << 8 | u32::from(*octet);
        match self {
            Order::LowFirst => number.rev().fold(0, join),
            Order::HighFirst => number.fold(0, join),
        }
    }
}
