// The questions by number, as C asks them: the hash, the two-way question, and the packet question of an interface. Values go to
// places that are lent for them, which a refusal leaves as they were.
#![tactic(auto)]

ghost use Rattle.std.specs.Prelude.{◌≡◌};
ghost use Rattle.octets.specs.Outcome.{number_of, placed, itself};
ghost use Rattle.toeplitz.specs.Hash.{hash_outcome};
ghost use Rattle.toeplitz.specs.TwoWay.{two_way_outcome};
ghost use Rattle.messages.specs.Settings.{Good as GoodSettings};
ghost use Rattle.interface.specs.States.{settings_in, steered_by};
ghost use Rattle.questions.specs.Answers.{meets, bit_told, Steers};

use interface::Interface;
use steering::Steered;

// What a question answers that is not refused; and the packet question, which never is.
const DONE: u32 = 0;

const UNHASHED: u32 = 0;

const HASHED: u32 = 1;

// The hash of the input under the key.
pub fn hash(key: &[u8], input: &[u8], hash: &mut u32) -> u32
    ensures value { result ≡ number_of (hash_outcome key.now input.now) }
    ensures hash_after { hash.new ≡ placed itself (hash_outcome key.now input.now) hash.old }
{
    match hashing::hash(key, input) {
        Ok(h) => {
            *hash = h;
            DONE
        }
        Err(refusal) => refusal.into(),
    }
}

// Whether the two directions of every conversation have one hash under the key, and else the lowest bit that tells.
pub fn two_way(key: &[u8], hash_type: u32, meet: &mut u32, bit: &mut usize) -> u32
    ensures value { result ≡ number_of (two_way_outcome key.now hash_type) }
    ensures meet_after { meet.new ≡ placed meets (two_way_outcome key.now hash_type) meet.old }
    ensures bit_after { bit.new ≡ placed bit_told (two_way_outcome key.now hash_type) bit.old }
{
    match directions::two_way(key, hash_type) {
        Ok(None) => {
            *meet = 1;
            DONE
        }
        Ok(Some(b)) => {
            *meet = 0;
            *bit = b;
            DONE
        }
        Err(refusal) => refusal.into(),
    }
}

// Type, hash and queue of a packet under the settings of the interface.
pub fn steer(
    interface: &Interface,
    packet: &[u8],
    hash_type: &mut u32,
    hash: &mut u32,
    queue: &mut u32,
) -> u32
    requires { GoodSettings (settings_in interface.now) }
    ensures { Steers (steered_by (settings_in interface.now) packet.now)
        hash_type.old hash.old result hash_type.new hash.new queue.new }
{
    match interface.steer(packet) {
        Steered::NoType { queue: q } => {
            *queue = q as u32;
            UNHASHED
        }
        Steered::Hashed {
            hash_type: t,
            hash: value,
            queue: q,
        } => {
            *hash_type = t.into();
            *hash = value;
            *queue = q as u32;
            HASHED
        }
    }
}
