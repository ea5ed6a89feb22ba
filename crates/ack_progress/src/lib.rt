// How far the ack has come that is being read: a part of it, one that is refused, or a whole one and what it says.
#![tactic(auto)]

ghost use Rattle.std.specs.Prelude.{◌≡◌, ◌++◌, ◌≤◌};
ghost use Rattle.octets.specs.Prelude.{take};
ghost use Rattle.messages.specs.Wire.{type_in};
ghost use Rattle.guest_messages.specs.Reader.{read_ack, ack_outcome_of};
ghost use Rattle.guest_steps.specs.Guest.{max_ack_payload, state_of, incoming};
ghost use Rattle.guest_steps.specs.Calls.{seen};
ghost use Rattle.guest_steps.specs.Inner.{sight_of};

use guest_messages::{AckRead, NotAnAck};
use guest_steps::Guest;
use messages::{FIELD, HEADER, MAX_ACK, SIZE_AT};

// Octets of a header, as the octets taken of a message are counted, and the two sizes that an ack can have.
const HEADER_OCTETS: u64 = HEADER as u64;

const STATUS_ALONE: usize = FIELD;

const WITH_FLAGS: usize = FIELD + FIELD;

// Looks at the ack read so far: a size that no ack has is refused at the header, and the reader judges the rest.
#[tactic(auto, unfolding(guest_steps::specs::Calls::seen))]
pub fn look(guest: &Guest) -> Result<Option<AckRead>, NotAnAck>
    ensures { let g = state_of guest.now in sight_of result ≡ seen (type_in g.request) (incoming g).message }
{
    if guest.incoming.taken < HEADER_OCTETS {
        return Ok(None);
    }
    let size = octets::read_u32(&guest.header, SIZE_AT) as usize;
    if size != STATUS_ALONE && size != WITH_FLAGS {
        return Err(NotAnAck);
    }
    if !guest.incoming.is_whole(&guest.header) {
        return Ok(None);
    }
    let ack = judge(guest, size)?;
    Ok(Some(ack))
}

// What the reader says of a whole ack with a payload of `size` octets.
#[tactic(auto, using(crate::proofs::Sights::put_part))]
fn judge(guest: &Guest, size: usize) -> Result<AckRead, NotAnAck>
    requires { size ≤ max_ack_payload }
    ensures { ack_outcome_of result ≡ read_ack (type_in guest.now.request) (guest.now.header ++ take size guest.now.payload) }
{
    let kind = octets::read_u32(&guest.request, 0);
    let mut message = [0; MAX_ACK];
    message[..HEADER].copy_from_slice(&guest.header);
    message[HEADER..].copy_from_slice(&guest.payload);
    ack_reader::read_ack(kind, &message[..HEADER + size])
}
