// Each request by itself: its checks in order, and its effect only after the last. A refusal leaves what is lent as it was.
#![tactic(auto)]

ghost use Rattle.messages.specs.Inner.{GetsFlags, SetsFlags, SetsKey, SetsMapping};

use messages::{FIELD, MAX_ENTRIES, MAX_PAYLOAD, Refusal};
use toeplitz::KEY_LENGTH;

// Sizes as a header gives them.
const FIELD_SIZE: u32 = FIELD as u32;

const KEY_SIZE: u32 = KEY_LENGTH as u32;

const MOST_ENTRIES: u32 = MAX_ENTRIES as u32;

pub fn get_flags(size: u32) -> Result<(), Refusal>
    ensures { GetsFlags size result }
{
    if size != 0 {
        return Err(Refusal::InvalidParameter);
    }
    Ok(())
}

pub fn set_flags(flags: &mut u64, size: u32, payload: &[u8; MAX_PAYLOAD]) -> Result<(), Refusal>
    ensures { SetsFlags size payload.now flags.old result flags.new }
{
    if size != FIELD_SIZE {
        return Err(Refusal::InvalidParameter);
    }
    let value = octets::read_u64(payload, 0);
    if value > messages::ALL_FLAGS as u64 {
        return Err(Refusal::InvalidParameter);
    }
    *flags = value;
    Ok(())
}

pub fn set_key(
    key: &mut [u8; KEY_LENGTH],
    size: u32,
    payload: &[u8; MAX_PAYLOAD],
) -> Result<(), Refusal>
    ensures { SetsKey size payload.now key.old result key.new }
{
    if size != KEY_SIZE {
        return Err(Refusal::InvalidParameter);
    }
    key.copy_from_slice(&payload[0..KEY_LENGTH]);
    Ok(())
}

pub fn set_mapping(
    queues: u8,
    entries: &mut [u8; MAX_ENTRIES],
    count: &mut u64,
    size: u32,
    payload: &[u8; MAX_PAYLOAD],
) -> Result<(), Refusal>
    ensures { SetsMapping queues size payload.now entries.old count.old result entries.new
        count.new }
{
    if size % FIELD_SIZE != 0 {
        return Err(Refusal::InvalidParameter);
    }
    let new_count = size / FIELD_SIZE;
    if !messages::is_power_of_two(new_count) {
        return Err(Refusal::InvalidParameter);
    }
    if new_count > MOST_ENTRIES {
        return Err(Refusal::BufferOverflow);
    }
    if !messages::all_below(payload, new_count as u8, queues) {
        return Err(Refusal::InvalidParameter);
    }
    let mapping = messages::build_table(payload, new_count as u8);
    // Through a variable: the check covers no array that goes from field to field.
    let table = mapping.entries;
    *entries = table;
    *count = mapping.count as u64;
    Ok(())
}
