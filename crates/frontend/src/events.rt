// The event of the guest's end: octets of the request that are owed go first, and once all are written the ack is collected.
ghost use Rattle.std.specs.Prelude.{◌≡◌};
ghost use Rattle.guest_steps.specs.Guest.{Good, state_of};
ghost use Rattle.guest_steps.specs.Calls.{left, event_of};

use guest_steps::{Guest, IDLE, Progress, Refusal};

// One event of the guest on its page.
#[tactic(auto, unfolding(guest_steps::specs::Calls::event_by))]
pub fn event(guest: &mut Guest, page: &mut [u8]) -> Result<Progress, Refusal>
    requires { Good (state_of guest.old) }
    ensures { (left result (state_of guest.new) page.new ≡ event_of (state_of guest.old) page.old)
        × Good (state_of guest.new) }
{
    let counts = guest.find(&page[..])?;
    if guest.phase == IDLE {
        guest_writes::write_counts(guest, page);
        return Ok(Progress::Pending);
    }
    if guest.outgoing.owes() {
        return Ok(guest_writes::write_on(guest, counts.room, page));
    }
    collecting::collect(guest, counts.unread, page)
}
