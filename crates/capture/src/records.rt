// One record: a header of 16 octets, of which only the captured length is looked at, and the captured octets.
ghost use Rattle.std.specs.Prelude.{◌≡◌, ◌<◌};
ghost use Rattle.octets.specs.Prelude.{length};
ghost use Rattle.capture.specs.Records.{step_at, step_outcome_of};

use crate::{MAX_RECORD, Order, RECORD_HEADER, Record, RecordWrong};

// Where in a record's header the captured length stands.
const LENGTH_AT: usize = 8;

// What stands at a place of the capture: no octet, or a record.
#[tactic(auto, using(crate::proofs::Steps::ends))]
pub(crate) fn step_at(capture: &[u8], at: usize) -> Option<Result<Record, RecordWrong>>
    ensures { step_outcome_of result ≡ step_at capture.now at }
{
    if at < capture.len() {
        Some(first_record(capture, at))
    } else {
        None
    }
}

// The record that begins at a place where octets are left.
#[tactic(auto, using(crate::proofs::Steps::ends))]
fn first_record(capture: &[u8], at: usize) -> Result<Record, RecordWrong>
    requires { at < length capture.now }
    ensures { step_outcome_of (Some result) ≡ step_at capture.now at }
{
    let left = capture.len() - at;
    if left < RECORD_HEADER {
        return Err(RecordWrong);
    }
    let length = Order::of(capture).number_at::<4>(capture, at + LENGTH_AT);
    if length > MAX_RECORD || left - RECORD_HEADER < length as usize {
        return Err(RecordWrong);
    }
    let start = at + RECORD_HEADER;
    Ok(Record {
        start,
        end: start + length as usize,
    })
}
