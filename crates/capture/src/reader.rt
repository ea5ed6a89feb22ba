// The reader that goes from record to record: a struct that holds the octets of a capture and its place in them. It is
// thin; the work is done by `step_at`, on a slice and a number.
ghost use Rattle.std.specs.Prelude.{◌≡◌};
ghost use Rattle.capture.specs.Header.{capture_header};
ghost use Rattle.capture.specs.Records.{step_at, step_outcome_of};

use crate::records::step_at;
use crate::{CAPTURE_HEADER, Record, RecordWrong};

#[derive(Drop)]
pub struct Reader<'a> {
    pub capture: &'a [u8],
    pub at: usize,
}

impl<'a> Reader<'a> {
    // A reader at the first record, behind the capture's header.
    pub fn open(capture: &'a [u8]) -> Self
        ensures { (result.capture ≡ capture.entry) × (result.at ≡ capture_header) }
    {
        Reader {
            capture,
            at: CAPTURE_HEADER,
        }
    }

    // The same capture at another place.
    pub fn moved(self, at: usize) -> Self
        ensures { (result.capture ≡ self.entry.capture) × (result.at ≡ at) }
    {
        Reader { at, ..self }
    }
}

// The record at the reader's place, up to the end of the capture or a record that is wrong.
impl Iterator for Reader<'_> {
    type Item = Result<Record, RecordWrong>;

    ghost use Rattle.capture.specs.Reading.{Reads, octets_left};
    ghost use Rattle.std.specs.Iterator.{at_most};

    ghost next_gives = { Reads };

    ghost remaining = { λ s. at_most (octets_left s) };

    fn next(&mut self) -> Option<Self::Item> {
        let step = step_at(self.capture, self.at);
        match step {
            Some(Ok(record)) => self.at = record.end,
            Some(Err(_)) => self.at = self.capture.len(),
            None => {}
        }
        step
    }
}

// The record at a place of a capture, for callers that hold no reader.
pub fn record_at(capture: &[u8], at: usize) -> Option<Result<Record, RecordWrong>>
    ensures { step_outcome_of result ≡ step_at capture.now at }
{
    Reader::open(capture).moved(at).next()
}
