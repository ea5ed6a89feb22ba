// The end of an event that has read: a request that is whole is carried out, and as much of its ack written as fits.
#![tactic(auto)]

ghost use Rattle.std.specs.Prelude.{◌≡◌, ◌^◌, ◌≤◌, ◌<◌};
ghost use Rattle.octets.specs.Prelude.{length};
ghost use Rattle.page.specs.Page.{page_size, area_size};
ghost use Rattle.interface.specs.States.{Good, state_of};
ghost use Rattle.interface.specs.Events.{left, progress_number, carried_over, after_read};

use interface::{Interface, Progress};

// Once the octets there are have been read: a request that is whole is carried out, and as much of its ack written as fits.
pub fn conclude(i: &mut Interface, page: &mut [u8], room: u32) -> Progress
    requires good { Good (carried_over (state_of i.old)) × (i.old.queues < 2 ^ 8) }
    requires page_len { (length page.old ≡ page_size) × (room ≤ area_size) }
    requires counts { (i.old.incoming.cons < 2 ^ 32) × (i.old.outgoing.prod < 2 ^ 32) }
    ensures { left (progress_number result) (state_of i.new) page.new ≡ after_read (state_of i.old) page.old room }
{
    if i.incoming.is_whole(&i.header) {
        requests::carry_out(i);
        return event_stages::respond(i, page, room);
    }
    i.write_counts(page);
    Progress::Waiting
}
