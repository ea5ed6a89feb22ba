// The two-way question: the windows of the two addresses are compared, then those of the two ports. An
// input's bit and its place in the reverse count alike exactly where their windows are equal.
#![tactic(auto)]

ghost use Rattle.std.specs.Prelude.{◌≡◌, ◌+◌, ◌*◌, ◌≤◌};
ghost use Rattle.octets.specs.Prelude.{length};
ghost use Rattle.toeplitz.specs.Hash.{key_length, max_input};
ghost use Rattle.toeplitz.specs.TwoWay.{type_number, address_size, port_size, two_way_outcome, two_way_outcome_of};
ghost use Rattle.directions.specs.Inner.{FoundIn};

use toeplitz::{HashType, KEY_LENGTH, TwoWayRefusal, next_window, octet_window};

// The lowest bit that, alone set, gives an input with another hash than its reverse; none where the two directions of every
// conversation have one hash under the key. The type is a number: C asks by number, and any can come.
pub fn two_way(key: &[u8], hash_type: u32) -> Result<Option<usize>, TwoWayRefusal>
    ensures { two_way_outcome_of result ≡ two_way_outcome key.now hash_type }
{
    if key.len() != KEY_LENGTH {
        return Err(TwoWayRefusal::KeyLength);
    }
    let known = HashType::try_from(hash_type)?;
    let address = address_size(known);
    let port = port_size(known);
    if let Some(bit) = first_difference(key, 0, address) {
        return Ok(Some(bit));
    }
    // The ports stand behind two addresses, at eight bits to an octet.
    if let Some(bit) = first_difference(key, address * 2, port) {
        return Ok(Some(address * 16 + bit));
    }
    Ok(None)
}

// Octets of an address, and of a port, in an input of a type.
fn address_size(hash_type: HashType) -> usize
    ensures { (result ≡ address_size (type_number hash_type)) × (result ≤ 16) }
{
    match hash_type {
        HashType::Ipv4 | HashType::Ipv4Tcp => 4,
        HashType::Ipv6 | HashType::Ipv6Tcp => 16,
    }
}

fn port_size(hash_type: HashType) -> usize
    ensures { (result ≡ port_size (type_number hash_type)) × (result ≤ 2) }
{
    match hash_type {
        HashType::Ipv4 | HashType::Ipv6 => 0,
        HashType::Ipv4Tcp | HashType::Ipv6Tcp => 2,
    }
}

// The first bit of the `size` octets from octet `at` on whose window differs from that at the same bit of the next `size`
// octets.
fn first_difference(key: &[u8], at: usize, size: usize) -> Option<usize>
    requires { (length key.now ≡ key_length) × (at + (size + size) ≤ max_input) }
    ensures { FoundIn key.now (at * 8) ((at + size) * 8) (size * 8) result }
{
    let mut left = octet_window(key, at);
    let mut right = octet_window(key, at + size);
    for j in 0..size * 8 {
        if left != right {
            return Some(j);
        }
        left = next_window(key, left, at * 8 + j);
        right = next_window(key, right, (at + size) * 8 + j);
    }
    None
}
