// What a call of the guest's end writes: the request on, and both own counts.
#![tactic(auto)]

ghost use Rattle.std.specs.Prelude.{◌≡◌, ◌≤◌};
ghost use Rattle.octets.specs.Prelude.{length};
ghost use Rattle.page.specs.Page.{page_size, area_size, counted_by_guest};
ghost use Rattle.ring.specs.Writing.{GoodOutgoing};
ghost use Rattle.guest_steps.specs.Guest.{max_request, state_of, outgoing};
ghost use Rattle.guest_steps.specs.Calls.{left, wrote_on};
ghost use Rattle.guest_steps.specs.Inner.{CountsFit};

use guest_steps::{Guest, Progress};
use page::{REQ_PROD, REQUESTS, RSP_CONS};

// Writes as many octets of the request as fit into `room` octets, and both counts.
#[tactic(auto, unfolding(guest_steps::specs::Calls::wrote_on))]
pub fn write_on(guest: &mut Guest, room: u32, page: &mut [u8]) -> Progress
    requires page_len { (length page.old ≡ page_size) × (room ≤ area_size) }
    requires counts_fit { CountsFit (state_of guest.old) }
    requires good_outgoing { GoodOutgoing max_request (outgoing (state_of guest.old)) }
    ensures { left (Ok result) (state_of guest.new) page.new ≡ wrote_on (state_of guest.old) page.old room }
{
    guest.outgoing.send(page, REQUESTS, &guest.request, room);
    write_counts(guest, page);
    if guest.outgoing.owes() {
        Progress::RequestOwed
    } else {
        Progress::Pending
    }
}

// Writes both own counts. They stand at other places than an interface's, so each end has its own.
pub fn write_counts(guest: &Guest, page: &mut [u8])
    requires { (length page.old ≡ page_size) × CountsFit (state_of guest.now) }
    ensures { page.new ≡ counted_by_guest page.old guest.now.incoming.cons guest.now.outgoing.prod }
{
    page::write_counts(
        page,
        RSP_CONS,
        guest.incoming.cons as u32,
        REQ_PROD,
        guest.outgoing.prod as u32,
    );
}
