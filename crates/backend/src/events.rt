// The event of an interface's control ring: the counts are checked first, then an ack that is owed goes before
// anything is read, and a request is carried out once it is whole. The work is done in place, so that an event copies only what
// it moves.
ghost use Rattle.std.specs.Prelude.{◌≡◌, ◌≤◌};
ghost use Rattle.octets.specs.Prelude.{length};
ghost use Rattle.page.specs.Page.{page_size, area_size};
ghost use Rattle.interface.specs.States.{Good, state_of};
ghost use Rattle.interface.specs.Events.{left, progress_number, event_number, proceeded, event_of};

use interface::{Interface, Progress};
use page::{AREA, PAGE, PageRefusal, REQ_PROD, RSP_CONS};

// One event of the interface on its page. The own counts are those of the interface, whatever the page says of them.
#[tactic(auto, unfolding(interface::specs::Events::event_of))]
pub fn event(i: &mut Interface, page: &mut [u8]) -> Result<Progress, PageRefusal>
    requires { Good (state_of i.old) }
    ensures { (left (event_number result) (state_of i.new) page.new ≡ event_of (state_of i.old) page.old)
        × Good (state_of i.new) }
{
    if page.len() != PAGE {
        return Err(PageRefusal::PageLength);
    }
    let unread = page::unread_here(&page[..], REQ_PROD, i.incoming.cons as u32);
    if unread > AREA {
        return Err(PageRefusal::RequestCount);
    }
    let waiting = page::unread_by_other(&page[..], RSP_CONS, i.outgoing.prod as u32);
    if waiting > AREA {
        return Err(PageRefusal::ResponseCount);
    }
    Ok(proceed(i, page, unread, AREA - waiting))
}

// An event with good counts: ack octets that are owed go first, into `room` octets, and then nothing is read.
fn proceed(i: &mut Interface, page: &mut [u8], unread: u32, room: u32) -> Progress
    requires good { Good (state_of i.old) }
    requires page_len { (length page.old ≡ page_size) × (unread ≤ area_size) × (room ≤ area_size) }
    ensures { left (progress_number result) (state_of i.new) page.new ≡ proceeded (state_of i.old) page.old unread room }
{
    if i.outgoing.owes() {
        return event_stages::respond(i, page, room);
    }
    event_stages::read_request(i, &page[..], unread);
    concluding::conclude(i, page, room)
}
