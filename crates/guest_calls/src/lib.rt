// The guest's calls, each by the number of its answer: what the exported calls are.
#![tactic(auto)]

ghost use Rattle.std.specs.Prelude.{◌≡◌};
ghost use Rattle.guest_steps.specs.Guest.{Good, state_of};
ghost use Rattle.guest_steps.specs.Calls.{message_of, start_of, event_of};
ghost use Rattle.guest_numbers.specs.Answers.{Leaves, status_of_told, flags_of_told};

use guest_steps::{Ask, Guest};

// Starts a request of the guest on its page. It is written out where it is called, as that of `frontend`.
#[inline(always)]
pub fn start(guest: &mut Guest, page: &mut [u8], ask: Ask) -> u32
    requires { Good (state_of guest.old) }
    ensures { Leaves (start_of (message_of ask.entry) (state_of guest.old) page.old) result (state_of guest.new) page.new
        × Good (state_of guest.new) }
{
    frontend::start(guest, page, ask).map_or_else(u32::from, u32::from)
}

// One event of the guest on its page.
pub fn event(guest: &mut Guest, page: &mut [u8], status: &mut u32, flags: &mut u32) -> u32
    requires { Good (state_of guest.old) }
    ensures leaves { Leaves (event_of (state_of guest.old) page.old) result (state_of guest.new) page.new
        × Good (state_of guest.new) }
    ensures status_after { status.new ≡ status_of_told (event_of (state_of guest.old) page.old).answer status.old }
    ensures flags_after { flags.new ≡ flags_of_told (event_of (state_of guest.old) page.old).answer flags.old }
{
    let answer = frontend::event(guest, page);
    guest_numbers::tell_answer(answer, status, flags)
}
