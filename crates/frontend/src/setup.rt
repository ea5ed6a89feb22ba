// A new guest, written in place.
ghost use Rattle.std.specs.Prelude.{◌≡◌};
ghost use Rattle.guest_steps.specs.Guest.{state_of, guest_at_setup};

use guest_steps::{Guest, IDLE, MAX_ACK_PAYLOAD, MAX_REQUEST};
use messages::HEADER;
use ring::{Receiving, Sending};

// Sets up the guest: no request, and both own counts 0. Every octet of it is written.
pub fn set_up(guest: &mut Guest)
    ensures { state_of guest.new ≡ guest_at_setup }
{
    *guest = Guest {
        phase: IDLE,
        outgoing: Sending::default(),
        incoming: Receiving::default(),
        request: [0; MAX_REQUEST],
        header: [0; HEADER],
        payload: [0; MAX_ACK_PAYLOAD],
    };
}
