// Which queue a packet goes to, under the settings of an interface: the one question that answers a packet's type,
// hash and queue together. Nothing is copied: key, table and packet are lent, and the hash input is a part of the
// packet.
#![tactic(auto)]

ghost use Rattle.std.specs.Prelude.{◌≡◌, ◌≤◌};
ghost use Rattle.octets.specs.Prelude.{length};
ghost use Rattle.toeplitz.specs.Hash.{max_input, published_hash};
ghost use Rattle.toeplitz.specs.TwoWay.{type_number};
ghost use Rattle.steering.specs.Steering.{Usable, is_set, hashed_to, steered, choice_of};
ghost use Rattle.steering.specs.Inner.{OwnInput, steered_ip};

use toeplitz::HashType;

// Where a packet goes. Both cases name a queue, so this is no Option.
#[derive(Clone, Copy, Debug, PartialEq, Eq)]
pub enum Steered {
    // No hash type is used for the packet.
    NoType {
        queue: u8,
    },
    // The type used, the hash of that type's input, and the mapping entry at this very hash.
    Hashed {
        hash_type: HashType,
        hash: u32,
        queue: u8,
    },
}

// The queue of a packet that no hash type is used for.
const DEFAULT_QUEUE: u8 = 0;

// The type, hash and queue of a packet under these flags, key and mapping table, which are those of one interface. They are lent
// apart, as an interface has them: a struct of the three would be made for each packet.
pub fn steer(flags: u8, key: &[u8], table: &[u8], packet: &[u8]) -> Steered
    requires { Usable key.now table.now }
    ensures { choice_of result ≡ steered flags key.now table.now packet.now }
{
    match packet::look(packet) {
        None => unhashed(),
        Some(found) => steer_ip(
            flags,
            key,
            table,
            found.hash_type,
            &packet[found.addresses..found.end],
            found.ports - found.addresses,
        ),
    }
}

// The answer for a packet of this kind with this input, whose first octets, `plain_size` of them, are the input of
// the plain type.
fn steer_ip(
    flags: u8,
    key: &[u8],
    table: &[u8],
    hash_type: HashType,
    input: &[u8],
    plain_size: usize,
) -> Steered
    requires { Usable key.now table.now × OwnInput (type_number hash_type) input.now plain_size }
    ensures { choice_of result ≡ steered_ip flags key.now table.now (type_number hash_type) input.now }
{
    if is_set(flags, hash_type) {
        return hashed(hash_type, key, table, input);
    }
    // Without the TCP type's flag, a TCP packet is taken by its plain type.
    let plain = hash_type.plain();
    if is_set(flags, plain) {
        return hashed(plain, key, table, &input[0..plain_size]);
    }
    unhashed()
}

fn unhashed() -> Steered
    ensures { result ≡ Steered.NoType 0 }
{
    Steered::NoType {
        queue: DEFAULT_QUEUE,
    }
}

// Whether the flag of a hash type is set.
fn is_set(flags: u8, hash_type: HashType) -> bool
    ensures { result ≡ is_set flags (type_number hash_type) }
{
    (flags >> u32::from(hash_type)) % 2 == 1
}

// The answer for a type with this input.
fn hashed(hash_type: HashType, key: &[u8], table: &[u8], input: &[u8]) -> Steered
    requires { Usable key.now table.now × (length input.now ≤ max_input) }
    ensures { choice_of result ≡ hashed_to (type_number hash_type) (published_hash key.now input.now) table.now }
{
    // The hash call refuses neither: the key is 40 octets and no input is above 36.
    at_hash(hash_type, hashing::hash_or(key, input, 0), table)
}

// The answer for a type with this hash.
fn at_hash(hash_type: HashType, hash: u32, table: &[u8]) -> Steered
    requires { 1 ≤ length table.now }
    ensures { choice_of result ≡ hashed_to (type_number hash_type) hash table.now }
{
    let at = hash as usize % table.len();
    Steered::Hashed {
        hash_type,
        hash,
        queue: table[at],
    }
}
