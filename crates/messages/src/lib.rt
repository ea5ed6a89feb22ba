// The control messages: their types, statuses and lengths, what the settings of an interface are, and two parts of carrying a
// request out: the table that a mapping gives, and the ack.
#![tactic(auto)]

ghost use Rattle.std.specs.Prelude.{◌≡◌};
ghost use Rattle.messages.specs.Requests.{request_of, named, refusal_status};

mod acks;
mod power;
mod table;

pub use acks::{with_flags, with_status};
pub use power::is_power_of_two;
pub use table::{all_below, build_table};

// Message types: of the host's answer, and of the guest's requests. They are numbers here, since any number can stand in a header;
// `RequestType` is what is made of one.
pub const ACK_TYPE: u32 = 1;

pub const GET_FLAGS: u32 = 2;

pub const SET_FLAGS: u32 = 3;

pub const SET_KEY: u32 = 4;

pub const SET_MAPPING: u32 = 5;

// Octets of a header, and of a field: a status, a flags value or a mapping entry. And where in a header the
// size stands.
pub const HEADER: usize = 8;

pub const FIELD: usize = 8;

pub const SIZE_AT: usize = 4;

// The status of an ack to a request that is carried out, and those of the refusals.
pub const SUCCESS: u8 = 0;

pub const NOT_SUPPORTED: u8 = 1;

pub const INVALID_PARAMETER: u8 = 2;

pub const BUFFER_OVERFLOW: u8 = 3;

// All flags that are supported; the largest flags value.
pub const ALL_FLAGS: u8 = 15;

pub const MAX_ENTRIES: usize = 128;

// The most octets of a payload that are kept, and of an ack.
pub const MAX_PAYLOAD: usize = 1024;

pub const MAX_ACK: usize = 24;

// A mapping table: the queue of each entry. Octets of the array behind the table are 0. C's struct has a fixed array and its count,
// so it is so here and in an ack, and the definitions give both at once.
#[derive(Drop)]
pub struct Mapping {
    pub entries: [u8; MAX_ENTRIES],
    pub count: u8,
}

// An ack: a message of `length` octets, and zeros behind it.
#[derive(Drop)]
pub struct Ack {
    pub octets: [u8; MAX_ACK],
    pub length: usize,
}

// The requests of a guest.
#[derive(Clone, Copy, Debug, PartialEq, Eq)]
pub enum RequestType {
    GetFlags,
    SetFlags,
    SetKey,
    SetMapping,
}

// Why a request is not carried out.
#[derive(Clone, Copy, Debug, PartialEq, Eq)]
pub enum Refusal {
    NotSupported,
    InvalidParameter,
    BufferOverflow,
}

// The request with a type, as a header gives it: any number can stand there.
impl TryFrom<u32> for RequestType {
    type Error = Refusal;

    ghost try_from_gives = { λ t r. r ≡ named (request_of t) };

    #[tactic(auto, unfolding(crate::specs::Requests::request_of))]
    fn try_from(kind: u32) -> Result<RequestType, Refusal> {
        match kind {
            GET_FLAGS => Ok(RequestType::GetFlags),
            SET_FLAGS => Ok(RequestType::SetFlags),
            SET_KEY => Ok(RequestType::SetKey),
            SET_MAPPING => Ok(RequestType::SetMapping),
            _ => Err(Refusal::NotSupported),
        }
    }
}

// The status that a refusal is acked with.
impl From<Refusal> for u8 {
    ghost from_gives = { λ e status. status ≡ refusal_status e };

    fn from(refusal: Refusal) -> u8 {
        match refusal {
            Refusal::NotSupported => NOT_SUPPORTED,
            Refusal::InvalidParameter => INVALID_PARAMETER,
            Refusal::BufferOverflow => BUFFER_OVERFLOW,
        }
    }
}
