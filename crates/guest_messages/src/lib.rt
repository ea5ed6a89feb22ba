// The guest's messages: the writer of the four requests, and what the reader of acks answers. What is written is judged by form
// alone: whether a queue number is good is for the host to say.
#![tactic(auto)]

ghost use Rattle.std.specs.Prelude.{◌≡◌};
ghost use Rattle.guest_messages.specs.Refusals.{write_refusal_number, not_an_ack};

mod writer;

pub use writer::{write_get_flags, write_set_flags, write_set_key, write_set_mapping};

// The refusals by number. That of a key that is not 40 octets is the hash's own, 8.
pub const BUFFER_TOO_SHORT: u32 = 10;

pub const VALUE_NOT_LISTED: u32 = 11;

pub const NOT_AN_ACK: u32 = 12;

// Why a request is not written.
#[derive(Clone, Copy, Debug, PartialEq, Eq)]
pub enum WriteRefusal {
    // The key is not 40 octets.
    KeyLength,
    // The flags are above 15, or the mapping's length is not 1, 2, 4, .. 128.
    Value,
    // The buffer is shorter than the message.
    Buffer,
}

impl From<WriteRefusal> for u32 {
    ghost from_gives = { λ refusal n. n ≡ write_refusal_number refusal };

    fn from(refusal: WriteRefusal) -> u32 {
        match refusal {
            WriteRefusal::KeyLength => toeplitz::KEY_LENGTH_WRONG,
            WriteRefusal::Value => VALUE_NOT_LISTED,
            WriteRefusal::Buffer => BUFFER_TOO_SHORT,
        }
    }
}

// What an ack says.
#[derive(Clone, Copy, Debug, PartialEq, Eq)]
pub enum AckRead {
    // A status alone.
    Status(u8),
    // Status 0, and the flags that the host supports.
    Flags(u8),
}

// The refusal of a message that is no ack to this request.
#[derive(Clone, Copy, Debug, PartialEq, Eq)]
pub struct NotAnAck;

impl From<NotAnAck> for u32 {
    ghost from_gives = { λ _ n. n ≡ not_an_ack };

    fn from(_refusal: NotAnAck) -> u32 {
        NOT_AN_ACK
    }
}
