// The reader of acks. It is told the type of the request that it waits for, since that decides which acks
// there can be.
#![tactic(auto)]

ghost use Rattle.std.specs.Prelude.{◌≡◌};
ghost use Rattle.messages.specs.Requests.{request_of, carries_flags};
ghost use Rattle.guest_messages.specs.Reader.{status_allowed, ack_size, read_ack, ack_outcome_of};

use guest_messages::{AckRead, NotAnAck};
use messages::{
    ACK_TYPE, ALL_FLAGS, BUFFER_OVERFLOW, FIELD, GET_FLAGS, HEADER, NOT_SUPPORTED, RequestType,
    SIZE_AT, SUCCESS,
};

// Reads the ack to a request of type `kind`, a number: any can stand in a header, and C tells the reader one.
#[tactic(auto, using(guest_messages::proofs::Accepts::statuses), unfolding(guest_messages::specs::Reader::read_ack, guest_messages::specs::Reader::is_ack_to))]
pub fn read_ack(kind: u32, message: &[u8]) -> Result<AckRead, NotAnAck>
    ensures { ack_outcome_of result ≡ read_ack kind message.now }
{
    if message.len() < HEADER + FIELD || octets::read_u32(message, 0) != ACK_TYPE {
        return Err(NotAnAck);
    }
    let size = octets::read_u32(message, SIZE_AT) as usize;
    if message.len() - HEADER != size {
        return Err(NotAnAck);
    }
    let status = octets::read_u64(message, HEADER);
    if carries_flags(kind, status) {
        if size != FIELD + FIELD {
            return Err(NotAnAck);
        }
        let flags = octets::read_u64(message, HEADER + FIELD);
        if flags > ALL_FLAGS as u64 {
            return Err(NotAnAck);
        }
        return Ok(AckRead::Flags(flags as u8));
    }
    if size != FIELD || !is_allowed(kind, status) {
        return Err(NotAnAck);
    }
    Ok(AckRead::Status(status as u8))
}

// Whether a request of this type can get this status.
#[tactic(auto, unfolding(guest_messages::specs::Reader::status_allowed, messages::specs::Requests::request_of))]
fn is_allowed(kind: u32, status: u64) -> bool
    ensures { result ≡ status_allowed (request_of kind) status }
{
    match RequestType::try_from(kind) {
        Ok(_) => status <= BUFFER_OVERFLOW as u64,
        Err(_) => status == NOT_SUPPORTED as u64,
    }
}

// Whether the ack with this status has flags behind it.
#[tactic(auto, unfolding(messages::specs::Requests::request_of, messages::specs::Requests::carries_flags))]
fn carries_flags(kind: u32, status: u64) -> bool
    ensures { result ≡ carries_flags (request_of kind) status }
{
    kind == GET_FLAGS && status == SUCCESS as u64
}
