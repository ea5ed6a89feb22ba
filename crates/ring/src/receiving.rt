// The reading side of either end: the present message read from an area, first what is missing of its header, then of its payload,
// until it is whole or no octet is left. Octets of a following message stay.
ghost use Rattle.std.specs.Prelude.{◌≡◌, ◌+◌, ◌-◌, ◌^◌, ◌≤◌, ◌<◌};
ghost use Rattle.octets.specs.Prelude.{false, length, sets};
ghost use Rattle.messages.specs.Wire.{header_size};
ghost use Rattle.page.specs.Page.{area_size, advanced, octets_in};
ghost use Rattle.ring.specs.Reading.{message_length, is_whole, incoming_in, received_from};
ghost use Rattle.ring.specs.Inner.{header_moved, payload_moved};

use areas::read_area;
use messages::{HEADER, SIZE_AT};

// Octets of a header, as the octets taken of a message are counted.
const HEADER_OCTETS: u64 = HEADER as u64;

// How many octets are taken of the present message, and the own count of octets read, which is a 32-bit count as on the page.
// C reads the fields, so they are its numbers; header and payload stand elsewhere in its struct. What holds of them is asked in
// clauses, as for `Sending`.
#[repr(C)]
#[derive(Clone, Copy, Default)]
pub struct Receiving {
    pub taken: u64,
    pub cons: u64,
}

impl Receiving {
    // Whether all octets of the message with this header have been taken.
    pub fn is_whole(&self, header: &[u8; HEADER]) -> bool
        ensures { result ≡ is_whole header.now self.now.taken }
    {
        message_length(header) <= self.taken
    }

    // Reads the octets of the present message that stand among the `unread` ones of the area at `area`.
    pub fn receive(
        &mut self,
        page: &[u8],
        area: usize,
        header: &mut [u8; HEADER],
        payload: &mut [u8],
        unread: u32,
    )
        requires { (area + area_size ≤ length page.now) × (unread ≤ area_size) × (is_whole header.old self.old.taken ≡ false)
            × (self.old.cons < 2 ^ 32) }
        ensures side_after { incoming_in self.new header.new payload.new
            ≡ received_from area page.now (incoming_in self.old header.old payload.old) unread }
        ensures taken_fits { self.new.taken < 2 ^ 33 }
    {
        let cons = self.cons as u32;
        let some = read_header(page, area, header, self.taken, cons, unread as u64);
        let more = read_payload(
            page,
            area,
            header,
            payload,
            self.taken + some,
            cons.wrapping_add(some as u32),
            unread as u64 - some,
        );
        self.taken += some + more;
        self.cons = cons.wrapping_add((some + more) as u32) as u64;
    }
}

// The length of the message with this header.
fn message_length(header: &[u8; HEADER]) -> u64
    ensures { (result ≡ message_length header.now) × (result < 2 ^ 33) }
{
    HEADER_OCTETS + octets::read_u32(header, SIZE_AT) as u64
}

// Reads what is missing of the header, as far as it stands among the n octets from `count` on, and answers how many
// octets that is.
fn read_header(
    page: &[u8],
    area: usize,
    header: &mut [u8; HEADER],
    taken: u64,
    count: u32,
    n: u64,
) -> u64
    requires { area + area_size ≤ length page.now }
    ensures value { result ≡ header_moved taken n }
    ensures header_after { header.new ≡ sets header.old taken (octets_in area page.now count result) }
{
    if taken >= HEADER_OCTETS {
        return 0;
    }
    let k = (HEADER_OCTETS - taken).min(n);
    let start = taken as usize;
    read_area(page, area, count, &mut header[start..start + k as usize]);
    k
}

// Reads what is missing of the payload alike. Octets of it for which there is no place are counted and dropped.
fn read_payload(
    page: &[u8],
    area: usize,
    header: &[u8; HEADER],
    payload: &mut [u8],
    taken: u64,
    count: u32,
    n: u64,
) -> u64
    requires area_in_page { area + area_size ≤ length page.now }
    requires n_le_area_size { (n ≤ area_size) × (taken ≤ message_length header.now) }
    ensures value { result ≡ payload_moved header.now taken n }
    ensures payload_after { payload.new ≡ sets payload.old (taken - header_size) (octets_in area page.now count result) }
    ensures result_bound { taken + result < 2 ^ 33 }
{
    if taken < HEADER_OCTETS {
        return 0;
    }
    let k = (message_length(header) - taken).min(n);
    let start = taken - HEADER_OCTETS;
    let room = payload.len() as u64;
    if start < room {
        let kept = (room - start).min(k) as usize;
        let from = start as usize;
        read_area(page, area, count, &mut payload[from..from + kept]);
    }
    k
}
