// What the records of a capture hold, as its header tells it, and the IP packet in a record of that kind.
#![tactic(auto)]

ghost use Rattle.std.specs.Prelude.{◌≡◌, ◌≤◌};
ghost use Rattle.octets.specs.Prelude.{length};
ghost use Rattle.capture.specs.Header.{capture_header, is_classic, header_outcome, header_outcome_of};
ghost use Rattle.capture.specs.Packets.{holds_ip, ip_part};

use capture::{CAPTURE_HEADER, HeaderWrong, Link, MAGIC, MAGIC_AT, Order};

// Where the fields of the header that are looked at stand, beside the magic number, and the version.
const MAJOR_AT: usize = 4;

const MINOR_AT: usize = 6;

const LINK_AT: usize = 20;

const MAJOR: u32 = 2;

const MINOR: u32 = 4;

// Octets of an Ethernet header, and where in it the type of what follows stands.
const ETHERNET_HEADER: usize = 14;

const ETHER_TYPE_AT: usize = 12;

// The types of IPv4 and IPv6.
const ETHER_IPV4: u32 = 0x0800;

const ETHER_IPV6: u32 = 0x86DD;

// What the records of the capture hold, or that its header is bad.
#[tactic(auto, unfolding(capture::specs::Header::header_outcome))]
pub fn header(capture: &[u8]) -> Result<Link, HeaderWrong>
    ensures { header_outcome_of result ≡ header_outcome capture.now }
{
    if capture.len() < CAPTURE_HEADER {
        return Err(HeaderWrong);
    }
    let order = Order::of(capture);
    if !is_classic(capture, order) {
        return Err(HeaderWrong);
    }
    Link::try_from(order.number_at::<4>(capture, LINK_AT))
}

// Whether magic number and version are those of a classic capture.
#[tactic(auto, unfolding(capture::specs::Header::is_classic))]
fn is_classic(capture: &[u8], order: Order) -> bool
    requires { capture_header ≤ length capture.now }
    ensures { result ≡ is_classic order capture.now }
{
    order.number_at::<4>(capture, MAGIC_AT) == MAGIC
        && order.number_at::<2>(capture, MAJOR_AT) == MAJOR
        && order.number_at::<2>(capture, MINOR_AT) == MINOR
}

// The IP packet in the captured octets of a record, handed back as that part of them; no octets where there is none.
#[tactic(auto, unfolding(capture::specs::Packets::holds_ip, capture::specs::Packets::ip_part))]
pub fn ip_part<'a>(link: Link, captured: &'a [u8]) -> &'a [u8]
    ensures { result.now ≡ ip_part link captured.now }
{
    match link {
        Link::Ethernet if holds_ip(captured) => &captured[ETHERNET_HEADER..],
        Link::Ethernet => &[],
        Link::Raw => captured,
    }
}

// Whether an Ethernet frame holds an IP packet.
#[tactic(auto, unfolding(capture::specs::Packets::holds_ip))]
fn holds_ip(frame: &[u8]) -> bool
    ensures { result ≡ holds_ip frame.now }
{
    frame.len() >= ETHERNET_HEADER
        && matches!(
            Order::HighFirst.number_at::<2>(frame, ETHER_TYPE_AT),
            ETHER_IPV4 | ETHER_IPV6
        )
}
