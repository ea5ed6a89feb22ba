// The guest's end of the ring: its state as it is stored, what its calls answer, and what a call finds on the page.
#![tactic(auto)]

ghost use Rattle.std.specs.Prelude.{◌≡◌};
ghost use Rattle.guest_steps.specs.Guest.{refusal_number, progress_number};

mod calls;

use guest_messages::{AckRead, NOT_AN_ACK};
use messages::HEADER;
use page::PageRefusal;
use ring::{Receiving, Sending};

// The refusal of a request begun while one is outstanding.
const REQUEST_OUTSTANDING: u32 = 13;

// The most octets of a request, and of an ack's payload.
pub const MAX_REQUEST: usize = 1032;

pub const MAX_ACK_PAYLOAD: usize = 16;

// The phases of a guest: no request is outstanding; one is; an ack was refused, which only a new setup ends. C reads the phase,
// so it is a number.
pub const IDLE: u64 = 0;

pub const OUTSTANDING: u64 = 1;

pub const FAILED: u64 = 2;

// The guest's end of a ring: the phase; the present request, or the last one, with the own req_prod; and the ack, with the own
// rsp_cons. There is no padding: C has the fields one after the other. What holds of it is asked in clauses: C lends setup any numbers.
#[repr(C)]
#[derive(Drop)]
pub struct Guest {
    pub phase: u64,
    pub outgoing: Sending,
    pub incoming: Receiving,
    pub request: [u8; MAX_REQUEST],
    pub header: [u8; HEADER],
    pub payload: [u8; MAX_ACK_PAYLOAD],
}

// What a driver asks for: which flags the host supports; that it use these flags of hash types, this key, or this mapping.
#[derive(Clone, Copy)]
pub enum Ask<'a> {
    GetFlags,
    SetFlags(u64),
    SetKey(&'a [u8]),
    SetMapping(&'a [u64]),
}

// Why a call of the guest's end is refused.
#[derive(Clone, Copy, Debug, PartialEq, Eq)]
pub enum Refusal {
    // The page is refused, as it would be at the host's end.
    Page(PageRefusal),
    // An ack, now or at an earlier call, is not one to the request.
    AckRefused,
    // A request is begun while one is outstanding.
    Outstanding,
}

impl From<Refusal> for u32 {
    ghost from_gives = { λ refusal n. n ≡ refusal_number refusal };

    fn from(refusal: Refusal) -> u32 {
        match refusal {
            Refusal::Page(refusal) => refusal.into(),
            Refusal::AckRefused => NOT_AN_ACK,
            Refusal::Outstanding => REQUEST_OUTSTANDING,
        }
    }
}

// How far the request has come at a call that is not refused.
#[derive(Clone, Copy, Debug, PartialEq, Eq)]
pub enum Progress {
    // No ack yet, or no request.
    Pending,
    // Octets of the request are still owed.
    RequestOwed,
    // The ack is here, and says this.
    Acked(AckRead),
}

impl From<Progress> for u32 {
    ghost from_gives = { λ progress n. n ≡ progress_number progress };

    fn from(progress: Progress) -> u32 {
        match progress {
            Progress::Pending => 0,
            Progress::Acked(_) => 1,
            Progress::RequestOwed => 2,
        }
    }
}

// What a call finds on the page: the room in the request area, and the octets unread in the response area.
#[derive(Clone, Copy)]
pub struct Counts {
    pub room: u32,
    pub unread: u32,
}
