// The Toeplitz hash of a 40-octet key and an input of at most 36 octets: its definitions, the window that slides over the key, and
// what the hash call and the two-way question answer. Knows nothing of rings or packets.
#![tactic(auto)]

ghost use Rattle.std.specs.Prelude.{◌≡◌, ◌-◌, ◌%◌};
ghost use Rattle.toeplitz.specs.Hash.{hash_refusal_number};
ghost use Rattle.toeplitz.specs.TwoWay.{two_way_refusal_number, type_number, type_of};

mod window;

pub use window::{is_set, next_window, octet_window};

// Octets of a key, and the most octets of a hash input.
pub const KEY_LENGTH: usize = 40;

pub const MAX_INPUT: usize = 36;

// The numbers of the refusals.
const INPUT_TOO_LONG: u32 = 7;

pub const KEY_LENGTH_WRONG: u32 = 8;

const TYPE_UNKNOWN: u32 = 9;

// Why the hash call is refused.
#[derive(Clone, Copy, Debug, PartialEq, Eq)]
pub enum HashRefusal {
    // The key is not 40 octets.
    KeyLength,
    // The input is above 36 octets.
    InputLength,
}

// Why the two-way question is refused.
#[derive(Clone, Copy, Debug, PartialEq, Eq)]
pub enum TwoWayRefusal {
    // The key is not 40 octets.
    KeyLength,
    // The hash type is above 3.
    UnknownType,
}

// The hash types: what of a packet is hashed.
#[derive(Clone, Copy, Debug, PartialEq, Eq)]
pub enum HashType {
    Ipv4,
    Ipv4Tcp,
    Ipv6,
    Ipv6Tcp,
}

impl HashType {
    // The type without ports beside a TCP type; a type without ports itself.
    pub fn plain(self) -> Self
        ensures { type_number result ≡ type_number self - type_number self % 2 }
    {
        match self {
            HashType::Ipv4 | HashType::Ipv4Tcp => HashType::Ipv4,
            HashType::Ipv6 | HashType::Ipv6Tcp => HashType::Ipv6,
        }
    }
}

// The number of each type, and the type with a number.
impl From<HashType> for u32 {
    ghost from_gives = { λ t n. n ≡ type_number t };

    fn from(hash_type: HashType) -> u32 {
        match hash_type {
            HashType::Ipv4 => 0,
            HashType::Ipv4Tcp => 1,
            HashType::Ipv6 => 2,
            HashType::Ipv6Tcp => 3,
        }
    }
}

impl TryFrom<u32> for HashType {
    type Error = TwoWayRefusal;

    ghost try_from_gives = { λ n r. r ≡ type_of n };

    #[tactic(auto, unfolding(crate::specs::TwoWay::type_of))]
    fn try_from(number: u32) -> Result<HashType, TwoWayRefusal> {
        match number {
            0 => Ok(HashType::Ipv4),
            1 => Ok(HashType::Ipv4Tcp),
            2 => Ok(HashType::Ipv6),
            3 => Ok(HashType::Ipv6Tcp),
            _ => Err(TwoWayRefusal::UnknownType),
        }
    }
}

// The number of each refusal.
impl From<HashRefusal> for u32 {
    ghost from_gives = { λ e n. n ≡ hash_refusal_number e };

    fn from(refusal: HashRefusal) -> u32 {
        match refusal {
            HashRefusal::KeyLength => KEY_LENGTH_WRONG,
            HashRefusal::InputLength => INPUT_TOO_LONG,
        }
    }
}

impl From<TwoWayRefusal> for u32 {
    ghost from_gives = { λ e n. n ≡ two_way_refusal_number e };

    fn from(refusal: TwoWayRefusal) -> u32 {
        match refusal {
            TwoWayRefusal::KeyLength => KEY_LENGTH_WRONG,
            TwoWayRefusal::UnknownType => TYPE_UNKNOWN,
        }
    }
}
