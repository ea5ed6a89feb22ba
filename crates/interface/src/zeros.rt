// An interface of zeros: what setup begins from, and what a caller that has no struct of C's lends it.
ghost use Rattle.std.specs.Prelude.{◌≡◌};
ghost use Rattle.interface.specs.States.{state_of, interface_of_zeros};

use crate::Interface;
use messages::{HEADER, MAX_ACK, MAX_ENTRIES, MAX_PAYLOAD};
use ring::{Receiving, Sending};
use toeplitz::KEY_LENGTH;

impl Interface {
    // An interface of zeros, before its setup. A derived `Default` promises each array octet by octet, and setup asks for this
    // equation.
    pub fn zeroed() -> Self
        ensures { state_of result ≡ interface_of_zeros }
    {
        Interface {
            queues: 0,
            flags: 0,
            entry_count: 0,
            incoming: Receiving::default(),
            outgoing: Sending::default(),
            header: [0; HEADER],
            payload: [0; MAX_PAYLOAD],
            ack: [0; MAX_ACK],
            key: [0; KEY_LENGTH],
            entries: [0; MAX_ENTRIES],
        }
    }
}
