// The answers of the guest's end by their numbers: C is answered by number.
#![tactic(auto)]

ghost use Rattle.std.specs.Prelude.{◌≡◌};
ghost use Rattle.guest_steps.specs.Guest.{told_number, told_of};
ghost use Rattle.guest_numbers.specs.Answers.{status_of_told, flags_of_told};

use guest_steps::{Progress, Refusal};

// The number of an answer to an event, with what the ack says put into its places.
pub fn tell_answer(answer: Result<Progress, Refusal>, status: &mut u32, flags: &mut u32) -> u32
    ensures value { result ≡ told_number (told_of answer) }
    ensures status_after { status.new ≡ status_of_told (told_of answer) status.old }
    ensures flags_after { flags.new ≡ flags_of_told (told_of answer) flags.old }
{
    if let Ok(Progress::Acked(ack)) = answer {
        by_number::tell_ack(ack, status, flags);
    }
    answer.map_or_else(u32::from, u32::from)
}
