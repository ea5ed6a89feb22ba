// Answers of the hash and of the two-way question as the lines that the programs print.
#![tactic(auto)]

ghost use Rattle.std.specs.Prelude.{◌≡◌, ◌++◌, ◌+◌, ◌≤◌};
ghost use Rattle.octets.specs.Prelude.{length};
ghost use Rattle.toeplitz.specs.Hash.{hash_outcome_of};
ghost use Rattle.toeplitz.specs.TwoWay.{two_way_outcome_of};
ghost use Rattle.text.specs.Text.{capacity, longest_line, longest_type_line, Adds, Prints};
ghost use Rattle.text.specs.Lines.{hash_line, verdict_line, hash_text, two_way_text};

use directions::two_way;
use text::Text;
use toeplitz::{HashRefusal, HashType, KEY_LENGTH, TwoWayRefusal};

// What the hash program prints for the octets that it read: 40 key octets, then the input.
#[tactic(auto, using(crate::proofs::Keys::key_part, crate::proofs::Keys::input_part))]
pub fn hash_text(octets: &[u8]) -> Text
    ensures { Prints result (hash_text octets.now) }
{
    let (key, input) = octets.split_at(octets.len().min(KEY_LENGTH));
    hash_line(hashing::hash(key, input))
}

// What the two-way program prints for the key that it read: a line for each hash type.
#[tactic(auto, unfolding(text::specs::Lines::type_lines))]
pub fn two_way_text(key: &[u8]) -> Text
    ensures { Prints result (two_way_text key.now) }
{
    let mut text = Text::new();
    if key.len() != KEY_LENGTH {
        text.push_refusal_line(u32::from(TwoWayRefusal::KeyLength));
        return text;
    }
    push_type_line(&mut text, b"ipv4 ", two_way(key, HashType::Ipv4.into()));
    push_type_line(
        &mut text,
        b"ipv4_tcp ",
        two_way(key, HashType::Ipv4Tcp.into()),
    );
    push_type_line(&mut text, b"ipv6 ", two_way(key, HashType::Ipv6.into()));
    push_type_line(
        &mut text,
        b"ipv6_tcp ",
        two_way(key, HashType::Ipv6Tcp.into()),
    );
    text
}

// The line of one answer.
pub fn hash_line(answer: Result<u32, HashRefusal>) -> Text
    ensures { Prints result (hash_line (hash_outcome_of answer)) }
{
    let mut text = Text::new();
    push_hash_line(&mut text, answer);
    text
}

pub fn verdict_line(answer: Result<Option<usize>, TwoWayRefusal>) -> Text
    ensures { Prints result (verdict_line (two_way_outcome_of answer)) }
{
    let mut text = Text::new();
    push_verdict_line(&mut text, answer);
    text
}

pub fn push_hash_line(text: &mut Text, answer: Result<u32, HashRefusal>)
    requires { length text.old + longest_line ≤ capacity }
    ensures adds { Adds text.old (hash_line (hash_outcome_of answer)) text.new }
    ensures length_bound { length text.new ≤ length text.old + longest_line }
{
    match answer {
        Ok(hash) => {
            text.push_hex(hash);
            text.push_octets(b"\n");
        }
        Err(refusal) => text.push_refusal_line(u32::from(refusal)),
    }
}

// The name of a hash type, then the answer for it.
pub fn push_type_line(text: &mut Text, name: &[u8], answer: Result<Option<usize>, TwoWayRefusal>)
    requires { (length name.now ≤ 9) × (length text.old + longest_type_line ≤ capacity) }
    ensures adds { Adds text.old (name.now ++ verdict_line (two_way_outcome_of answer)) text.new }
    ensures length_bound { length text.new ≤ length text.old + longest_type_line }
{
    text.push_octets(name);
    push_verdict_line(text, answer);
}

pub fn push_verdict_line(text: &mut Text, answer: Result<Option<usize>, TwoWayRefusal>)
    requires { length text.old + longest_line ≤ capacity }
    ensures adds { Adds text.old (verdict_line (two_way_outcome_of answer)) text.new }
    ensures length_bound { length text.new ≤ length text.old + longest_line }
{
    match answer {
        Ok(None) => text.push_octets(b"yes\n"),
        Ok(Some(bit)) => text.push_number_line(b"no ", bit as u64),
        Err(refusal) => text.push_refusal_line(u32::from(refusal)),
    }
}
