// One interface of the host: how its state is stored, its setup, its packet question, and what its events answer.
#![tactic(auto)]

ghost use Rattle.std.specs.Prelude.{◌≡◌};
ghost use Rattle.interface.specs.States.{queues_wrong};
ghost use Rattle.interface.specs.Events.{progress_number};

mod counts;
mod packets;
mod setup;
mod zeros;

use ring::{Receiving, Sending};

// The most queues in operation.
pub const MAX_QUEUES: u32 = 64;

// The number of the refusal of a setup.
const QUEUES_WRONG: u32 = 6;

// The numbers of an event that is not refused.
const WAITING: u32 = 0;

const WRITTEN: u32 = 1;

const OWED: u32 = 2;

// One interface: its queues, flags and number of mapping entries; how far the present request is read, and the ack to the last
// one written; that request, of whose payload the first 1,024 octets are kept; the ack; the key, and the queue of each mapping
// entry, with zeros behind the table. C has the struct too, so each number takes eight octets, and there is no padding. What holds
// of it is asked in clauses: C lends setup any numbers.
#[repr(C)]
#[derive(Clone, Copy)]
pub struct Interface {
    pub queues: u64,
    pub flags: u64,
    pub entry_count: u64,
    pub incoming: Receiving,
    pub outgoing: Sending,
    pub header: [u8; messages::HEADER],
    pub payload: [u8; messages::MAX_PAYLOAD],
    pub ack: [u8; messages::MAX_ACK],
    pub key: [u8; toeplitz::KEY_LENGTH],
    pub entries: [u8; messages::MAX_ENTRIES],
}

// A setup is refused: the number of queues is 0 or more than 64.
#[derive(Clone, Copy, Debug, PartialEq, Eq)]
pub struct QueuesWrong;

// How far an event came that is not refused.
#[derive(Clone, Copy, Debug, PartialEq, Eq)]
pub enum Progress {
    // There is no whole request yet.
    Waiting,
    // The ack is wholly written.
    Written,
    // Octets of the ack are owed.
    Owed,
}

// The number of the refusal, and of each answer.
impl From<QueuesWrong> for u32 {
    ghost from_gives = { λ e n. n ≡ queues_wrong };

    fn from(_refusal: QueuesWrong) -> u32 {
        QUEUES_WRONG
    }
}

impl From<Progress> for u32 {
    ghost from_gives = { λ progress n. n ≡ progress_number progress };

    fn from(progress: Progress) -> u32 {
        match progress {
            Progress::Waiting => WAITING,
            Progress::Written => WRITTEN,
            Progress::Owed => OWED,
        }
    }
}
