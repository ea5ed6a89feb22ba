// What an IP packet is, by its length and a few of its octets, and where its hash input stands. The packet is a
// stranger's: only what its length covers is looked at.
#![tactic(auto)]

ghost use Rattle.std.specs.Prelude.{◌≡◌, ◌+◌, ◌*◌, ◌≤◌, ◌<◌};
ghost use Rattle.octets.specs.Prelude.{length};
ghost use Rattle.toeplitz.specs.TwoWay.{type_number};
ghost use Rattle.packet.specs.Packets.{is_ipv4, is_ipv6, is_tcp, is_fragment, is_ipv4_tcp, kind_of, look_at, look_of, typed};

use toeplitz::HashType;

// The least octets of a packet of each kind: its header, and for TCP the ports behind it.
const IPV4_LEAST: usize = 20;

const IPV4_TCP_LEAST: usize = 24;

const IPV6_LEAST: usize = 40;

const IPV6_TCP_LEAST: usize = 44;

// The first octet of an IPv4 packet without options, and the top half of that of an IPv6 packet.
const IPV4_FIRST: u8 = 0x45;

const IPV6_VERSION: u8 = 6;

// Where the protocol stands, and its number for TCP.
const IPV4_PROTOCOL: usize = 9;

const IPV6_PROTOCOL: usize = 6;

const TCP: u8 = 6;

// Where the fragment field of IPv4 stands, and its bits that make a fragment. Above these are the don't-fragment bit and a
// reserved bit, which play no part.
const FRAGMENT_FIELD: usize = 6;

const MORE_FRAGMENTS: u16 = 0x2000;

const FRAGMENT_OFFSET: u16 = 0x1FFF;

// Where the source address begins, and where the destination address ends and the ports begin.
const IPV4_SOURCE: usize = 12;

const IPV4_PORTS: usize = 20;

const IPV6_SOURCE: usize = 8;

const IPV6_PORTS: usize = 40;

// What an IP packet is, and where its hash input stands.
#[derive(Clone, Copy)]
pub struct IpPacket {
    // The type of the packet's own kind.
    pub hash_type: HashType,
    // The addresses stand from `addresses` to `ports`, and the input of the type from `addresses` to `end`.
    pub addresses: usize,
    pub ports: usize,
    pub end: usize,
}

// The kind of a packet, and where its hash input stands; none where it is neither IPv4 nor IPv6.
pub fn look(packet: &[u8]) -> Option<IpPacket>
    ensures { look_of result ≡ look_at (kind_of packet.now) }
{
    if is_ipv4(packet) {
        if is_ipv4_tcp(packet) {
            return ip(HashType::Ipv4Tcp, IPV4_SOURCE, IPV4_PORTS, IPV4_TCP_LEAST);
        }
        return ip(HashType::Ipv4, IPV4_SOURCE, IPV4_PORTS, IPV4_PORTS);
    }
    if is_ipv6(packet) {
        if is_tcp(packet, IPV6_PROTOCOL, IPV6_TCP_LEAST) {
            return ip(HashType::Ipv6Tcp, IPV6_SOURCE, IPV6_PORTS, IPV6_TCP_LEAST);
        }
        return ip(HashType::Ipv6, IPV6_SOURCE, IPV6_PORTS, IPV6_PORTS);
    }
    None
}

fn ip(hash_type: HashType, addresses: usize, ports: usize, end: usize) -> Option<IpPacket>
    ensures { look_of result ≡ typed (type_number hash_type) addresses ports end }
{
    Some(IpPacket {
        hash_type,
        addresses,
        ports,
        end,
    })
}

fn is_ipv4(packet: &[u8]) -> bool
    ensures { result ≡ is_ipv4 packet.now }
{
    packet.len() >= IPV4_LEAST && packet[0] == IPV4_FIRST
}

fn is_ipv6(packet: &[u8]) -> bool
    ensures { result ≡ is_ipv6 packet.now }
{
    packet.len() >= IPV6_LEAST && packet[0] / 16 == IPV6_VERSION
}

// Whether the protocol that stands at `at` is TCP, and the packet has the `least` octets that a TCP packet has.
fn is_tcp(packet: &[u8], at: usize, least: usize) -> bool
    requires { at < least }
    ensures { result ≡ is_tcp at least packet.now }
{
    packet.len() >= least && packet[at] == TCP
}

// Whether an IPv4 packet is TCP. A fragment is not: only the first one of a datagram has the ports, and all of them are to
// go to one queue.
fn is_ipv4_tcp(packet: &[u8]) -> bool
    ensures { result ≡ is_ipv4_tcp packet.now }
{
    is_tcp(packet, IPV4_PROTOCOL, IPV4_TCP_LEAST) && !is_fragment(packet)
}

// Whether an IPv4 packet is a fragment of a datagram.
fn is_fragment(packet: &[u8]) -> bool
    requires { 8 ≤ length packet.now }
    ensures { result ≡ is_fragment packet.now }
{
    let field = u16::from_be_bytes([packet[FRAGMENT_FIELD], packet[FRAGMENT_FIELD + 1]]);
    field & (MORE_FRAGMENTS | FRAGMENT_OFFSET) != 0
}
