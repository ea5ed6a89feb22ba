// The two kinds of ack. Each number in one fits its lowest octet, so only that one is stored.
ghost use Rattle.std.specs.Prelude.{◌≡◌};
ghost use Rattle.messages.specs.Requests.{ack_stored, status_payload, flags_payload};

use crate::{ACK_TYPE, Ack, FIELD, HEADER, MAX_ACK, SIZE_AT, SUCCESS};

// An ack with a status alone.
pub fn with_status(status: u8) -> Ack
    ensures { result ≡ ack_stored (status_payload status) }
{
    let mut octets = [0u8; MAX_ACK];
    octets[0] = ACK_TYPE as u8;
    octets[SIZE_AT] = FIELD as u8;
    octets[HEADER] = status;
    Ack {
        octets,
        length: HEADER + FIELD,
    }
}

// An ack with success and flags.
pub fn with_flags(flags: u8) -> Ack
    ensures { result ≡ ack_stored (flags_payload flags) }
{
    let mut ack = with_status(SUCCESS);
    ack.octets[SIZE_AT] = (FIELD + FIELD) as u8;
    ack.octets[HEADER + FIELD] = flags;
    ack.length += FIELD;
    ack
}
