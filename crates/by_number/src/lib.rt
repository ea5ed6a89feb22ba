// The guest's writer of requests and reader of acks by number: values go to places that are lent for them, which a refusal leaves
// as they were. C is answered by number.
#![tactic(auto)]

ghost use Rattle.std.specs.Prelude.{◌≡◌};
ghost use Rattle.octets.specs.Outcome.{number_of, placed, itself};
ghost use Rattle.guest_messages.specs.Writer.{written_outcome_of};
ghost use Rattle.guest_messages.specs.Reader.{reading_in, read_ack};
ghost use Rattle.by_number.specs.Answers.{status_told, flags_told};

use guest_messages::{AckRead, WriteRefusal};
use messages::SUCCESS;

// What a call answers that is not refused.
const DONE: u32 = 0;

// The number of an answer of the writer, with the message's length put into its place.
pub fn tell_written(answer: Result<usize, WriteRefusal>, length: &mut usize) -> u32
    ensures value { result ≡ number_of (written_outcome_of answer) }
    ensures length_after { length.new ≡ placed itself (written_outcome_of answer) length.old }
{
    match answer {
        Ok(n) => {
            *length = n;
            DONE
        }
        Err(refusal) => refusal.into(),
    }
}

// Reads the ack to a request of type `kind`, a number: any can stand in a header, and C tells the reader one.
pub fn read_ack(kind: u32, message: &[u8], status: &mut u32, flags: &mut u32) -> u32
    ensures value { result ≡ number_of (read_ack kind message.now) }
    ensures status_after { status.new ≡ placed status_told (read_ack kind message.now) status.old }
    ensures flags_after { flags.new ≡ placed flags_told (read_ack kind message.now) flags.old }
{
    match ack_reader::read_ack(kind, message) {
        Ok(ack) => {
            tell_ack(ack, status, flags);
            DONE
        }
        Err(refusal) => refusal.into(),
    }
}

// Puts what an ack says into its places. A status alone leaves that of the flags as it was.
pub fn tell_ack(ack: AckRead, status: &mut u32, flags: &mut u32)
    ensures status_after { status.new ≡ status_told (reading_in ack) status.old }
    ensures flags_after { flags.new ≡ flags_told (reading_in ack) flags.old }
{
    match ack {
        AckRead::Status(st) => {
            *status = st as u32;
        }
        AckRead::Flags(f) => {
            *status = SUCCESS as u32;
            *flags = f as u32;
        }
    }
}
