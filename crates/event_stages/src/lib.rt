// The stages of an event that move octets: of the present request from the page, and of the ack to it.
#![tactic(auto)]

ghost use Rattle.std.specs.Prelude.{◌≡◌, ◌^◌, ◌≤◌, ◌<◌};
ghost use Rattle.octets.specs.Prelude.{false, length};
ghost use Rattle.messages.specs.Requests.{max_ack};
ghost use Rattle.page.specs.Page.{page_size, area_size};
ghost use Rattle.ring.specs.Reading.{whole};
ghost use Rattle.ring.specs.Writing.{GoodOutgoing};
ghost use Rattle.interface.specs.States.{state_of};
ghost use Rattle.interface.specs.Events.{left, progress_number, read_in, responded};

use interface::{Interface, Progress};

// Reads octets of the present request, of which so many stand unread in the request area. An event that finds none is
// spared the call.
pub fn read_request(i: &mut Interface, page: &[u8], unread: u32)
    requires page_len { (length page.now ≡ page_size) × (unread ≤ area_size) }
    requires incoming { (whole (state_of i.old).incoming.message ≡ false) × (i.old.incoming.cons < 2 ^ 32) }
    ensures { state_of i.new ≡ read_in (state_of i.old) page.now unread }
{
    if unread > 0 {
        i.incoming.receive(page, page::REQUESTS, &mut i.header, &mut i.payload, unread);
    }
}

// Writes as much of the ack as fits into `room` octets, and both counts.
pub fn respond(i: &mut Interface, page: &mut [u8], room: u32) -> Progress
    requires page_len { (length page.old ≡ page_size) × (room ≤ area_size) × (i.old.incoming.cons < 2 ^ 32) }
    requires good_outgoing { GoodOutgoing max_ack (state_of i.old).outgoing }
    ensures { left (progress_number result) (state_of i.new) page.new ≡ responded (state_of i.old) page.old room }
{
    i.outgoing.send(page, page::RESPONSES, &i.ack, room);
    i.write_counts(page);
    if i.outgoing.owes() {
        Progress::Owed
    } else {
        Progress::Written
    }
}
