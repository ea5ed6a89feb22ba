// The writer: each request's checks, then the room in the buffer, and only then the message, its header first and its payload
// behind it.
ghost use Rattle.std.specs.Prelude.{◌≡◌, ◌++◌, ◌+◌, ◌≤◌, ◌<◌, MatchResult};
ghost use Rattle.octets.specs.Prelude.{length, drop};
ghost use Rattle.messages.specs.Wire.{header_size, max_payload, header, message};
ghost use Rattle.messages.specs.Settings.{max_entries, is_listed};
ghost use Rattle.guest_messages.specs.Writer.{fields_of, get_flags_message, set_flags_message, set_key_message, set_mapping_message, after, written};
ghost use Rattle.octets.specs.Outcome.{value};

use crate::WriteRefusal;
use messages::{
    ALL_FLAGS, FIELD, GET_FLAGS, HEADER, MAX_ENTRIES, SET_FLAGS, SET_KEY, SET_MAPPING, SIZE_AT,
};
use toeplitz::KEY_LENGTH;

// Asks which flags the host supports.
#[tactic(auto, using(crate::proofs::Buffers::fields_none))]
pub fn write_get_flags(buffer: &mut [u8]) -> Result<usize, WriteRefusal>
    ensures { after result buffer.new ≡ written get_flags_message buffer.old }
{
    write_fields(buffer, GET_FLAGS, &[])
}

// Sets the flags of the hash types to use.
#[tactic(auto, using(crate::proofs::Buffers::fields_one), unfolding(crate::specs::Writer::written))]
pub fn write_set_flags(buffer: &mut [u8], flags: u64) -> Result<usize, WriteRefusal>
    ensures { after result buffer.new ≡ written (set_flags_message flags) buffer.old }
{
    if flags > ALL_FLAGS as u64 {
        return Err(WriteRefusal::Value);
    }
    write_fields(buffer, SET_FLAGS, &[flags])
}

// Sets the key, octet for octet.
#[tactic(auto, using(crate::proofs::Buffers::message_short), unfolding(crate::specs::Writer::written))]
pub fn write_set_key(buffer: &mut [u8], key: &[u8]) -> Result<usize, WriteRefusal>
    ensures { after result buffer.new ≡ written (set_key_message key.now) buffer.old }
{
    if key.len() != KEY_LENGTH {
        return Err(WriteRefusal::KeyLength);
    }
    let length = write_header(buffer, SET_KEY, KEY_LENGTH)?;
    buffer[HEADER..length].copy_from_slice(key);
    Ok(length)
}

// Sets the mapping: the queue of each entry.
#[tactic(auto, unfolding(crate::specs::Writer::written, messages::specs::Settings::is_listed))]
pub fn write_set_mapping(buffer: &mut [u8], entries: &[u64]) -> Result<usize, WriteRefusal>
    ensures { after result buffer.new ≡ written (set_mapping_message entries.now) buffer.old }
{
    if !is_listed(entries.len()) {
        return Err(WriteRefusal::Value);
    }
    write_fields(buffer, SET_MAPPING, entries)
}

// Whether a mapping may have this many entries: 1, 2, 4, .. 128.
#[tactic(auto, unfolding(messages::specs::Settings::is_listed))]
fn is_listed(count: usize) -> bool
    ensures { result ≡ is_listed count }
{
    count <= MAX_ENTRIES && messages::is_power_of_two(count as u32)
}

// A message whose payload is these numbers in eight octets each, one after the other.
#[tactic(auto, using(crate::proofs::Buffers::fields))]
fn write_fields(buffer: &mut [u8], kind: u32, numbers: &[u64]) -> Result<usize, WriteRefusal>
    requires { length numbers.now ≤ max_entries }
    ensures { after result buffer.new ≡ written (value (message kind (fields_of numbers.now))) buffer.old }
{
    let length = write_header(buffer, kind, numbers.len() * FIELD)?;
    for (k, number) in numbers.iter().enumerate() {
        octets::write_u64(buffer, HEADER + k * FIELD, *number);
    }
    Ok(length)
}

// The header of a message with a payload of `size` octets, its type by the number that stands in it, if the buffer has room
// for both; answers how long both are.
#[tactic(auto, using(crate::proofs::Buffers::header_put))]
fn write_header(buffer: &mut [u8], kind: u32, size: usize) -> Result<usize, WriteRefusal>
    requires { size ≤ max_payload }
    ensures { MatchResult result
        (λ n. (n ≡ header_size + size) × (n ≤ length buffer.old) × (buffer.new ≡ header kind size ++ drop header_size buffer.old))
        (λ refusal. (refusal ≡ WriteRefusal.Buffer) × (length buffer.old < header_size + size) × (buffer.new ≡ buffer.old)) }
{
    let length = HEADER + size;
    if buffer.len() < length {
        return Err(WriteRefusal::Buffer);
    }
    octets::write_u32(buffer, 0, kind);
    octets::write_u32(buffer, SIZE_AT, size as u32);
    Ok(length)
}
