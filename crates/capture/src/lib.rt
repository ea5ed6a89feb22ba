// Classic libpcap captures: the order of their octets, and the records one after the other. A capture is a stranger's: only what
// its length covers is looked at, and every length in it is checked before it is used.
#![tactic(auto)]

ghost use Rattle.std.specs.Prelude.{◌≡◌};
ghost use Rattle.capture.specs.Header.{header_wrong, header_outcome_of, link_outcome};
ghost use Rattle.capture.specs.Records.{record_wrong};

mod numbers;
mod reader;
mod records;

pub use reader::{Reader, record_at};

// The numbers of the refusals.
const HEADER_WRONG: u32 = 14;

const RECORD_WRONG: u32 = 15;

// The magic number of a capture whose times are in microseconds, and where it stands.
pub const MAGIC: u32 = 0xA1B2C3D4;

pub const MAGIC_AT: usize = 0;

// The link types by their numbers.
const ETHERNET: u32 = 1;

const RAW: u32 = 101;

// Octets of the capture's header, and of a record's.
pub const CAPTURE_HEADER: usize = 24;

pub const RECORD_HEADER: usize = 16;

// The most captured octets of a record.
pub const MAX_RECORD: u32 = 2048;

// The order of the octets of every number in a capture.
#[derive(Clone, Copy, Debug, PartialEq, Eq)]
pub enum Order {
    LowFirst,
    HighFirst,
}

// What a record holds: an Ethernet frame, or an IP packet at its start.
#[derive(Clone, Copy, Debug, PartialEq, Eq)]
pub enum Link {
    Ethernet,
    Raw,
}

// No header of a capture that is read here.
#[derive(Clone, Copy, Debug, PartialEq, Eq)]
pub struct HeaderWrong;

// What the records hold under a link type.
impl TryFrom<u32> for Link {
    type Error = HeaderWrong;

    ghost try_from_gives = { λ n r. header_outcome_of r ≡ link_outcome n };

    #[tactic(auto, unfolding(crate::specs::Header::link_outcome))]
    fn try_from(number: u32) -> Result<Link, HeaderWrong> {
        match number {
            ETHERNET => Ok(Link::Ethernet),
            RAW => Ok(Link::Raw),
            _ => Err(HeaderWrong),
        }
    }
}

// The captured octets of a record stand from `start` to `end`, where the next record begins.
#[derive(Clone, Copy, Debug, PartialEq, Eq)]
pub struct Record {
    pub start: usize,
    pub end: usize,
}

// A record that is cut short, or has more than 2,048 captured octets.
#[derive(Clone, Copy, Debug, PartialEq, Eq)]
pub struct RecordWrong;

// The number of each refusal.
impl From<HeaderWrong> for u32 {
    ghost from_gives = { λ _ n. n ≡ header_wrong };

    fn from(_refusal: HeaderWrong) -> u32 {
        HEADER_WRONG
    }
}

impl From<RecordWrong> for u32 {
    ghost from_gives = { λ _ n. n ≡ record_wrong };

    fn from(_refusal: RecordWrong) -> u32 {
        RECORD_WRONG
    }
}
