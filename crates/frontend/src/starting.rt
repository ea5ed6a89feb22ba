// The start of a request. The checks come first, then the writer puts the request into its place, where nothing of another one is
// kept, and as much of it as fits goes to the page.
ghost use Rattle.std.specs.Prelude.{◌≡◌};
ghost use Rattle.guest_steps.specs.Guest.{Good, state_of};
ghost use Rattle.guest_steps.specs.Calls.{message_of, start_of};
ghost use Rattle.frontend.specs.Starts.{start_refusal_number, started};
ghost use Rattle.frontend.specs.declared.starting.StartRefusal.TheVariants.{Call, Request};

use guest_messages::WriteRefusal;
use guest_steps::{Ask, Guest, Progress, Refusal};

// Why a request is not started: the call is refused, or the writer refuses the request.
#[derive(Clone, Copy, Debug, PartialEq, Eq)]
pub enum StartRefusal {
    Call(Refusal),
    Request(WriteRefusal),
}

impl From<Refusal> for StartRefusal {
    ghost from_gives = { λ refusal e. e ≡ Call refusal };

    fn from(refusal: Refusal) -> StartRefusal {
        StartRefusal::Call(refusal)
    }
}

impl From<WriteRefusal> for StartRefusal {
    ghost from_gives = { λ refusal e. e ≡ Request refusal };

    fn from(refusal: WriteRefusal) -> StartRefusal {
        StartRefusal::Request(refusal)
    }
}

impl From<StartRefusal> for u32 {
    ghost from_gives = { λ refusal n. n ≡ start_refusal_number refusal };

    fn from(refusal: StartRefusal) -> u32 {
        match refusal {
            StartRefusal::Call(refusal) => refusal.into(),
            StartRefusal::Request(refusal) => refusal.into(),
        }
    }
}

// Starts a request of the guest on its page. It is written out where it is called, so that an exported start has what is asked for
// in registers.
#[inline(always)]
#[tactic(auto, unfolding(guest_steps::specs::Calls::start_by, guest_steps::specs::Calls::started_by))]
pub fn start(guest: &mut Guest, page: &mut [u8], ask: Ask) -> Result<Progress, StartRefusal>
    requires { Good (state_of guest.old) }
    ensures { (started result (state_of guest.new) page.new ≡ start_of (message_of ask.entry) (state_of guest.old) page.old)
        × Good (state_of guest.new) }
{
    let room = guest_starts::ready(guest, &page[..])?;
    // Every message has its place, so the writer never lacks room.
    let length = guest_starts::write_request(ask, &mut guest.request)?;
    Ok(guest_starts::begin(guest, length, room, page))
}
