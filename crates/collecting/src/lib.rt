// The guest's ack collected: octets of it read on, and once it is whole or refused the request ended.
#![tactic(auto)]

ghost use Rattle.std.specs.Prelude.{◌≡◌, ◌≤◌};
ghost use Rattle.octets.specs.Prelude.{length};
ghost use Rattle.page.specs.Page.{page_size, area_size};
ghost use Rattle.ring.specs.Reading.{GoodIncoming};
ghost use Rattle.guest_steps.specs.Guest.{max_ack_payload, state_of, incoming};
ghost use Rattle.guest_steps.specs.Calls.{left, read_on};
ghost use Rattle.guest_steps.specs.Inner.{CountsFit};

use guest_steps::{FAILED, Guest, IDLE, Progress, Refusal};

// Reads octets of the ack, of which so many stand unread. Of an ack that is refused nothing is counted, and the page stays.
#[tactic(auto, unfolding(guest_steps::specs::Calls::read_on, guest_steps::specs::Calls::concluded, ring::specs::Reading::received_from))]
pub fn collect(guest: &mut Guest, unread: u32, page: &mut [u8]) -> Result<Progress, Refusal>
    requires page_len { (length page.old ≡ page_size) × (unread ≤ area_size) }
    requires counts_fit { CountsFit (state_of guest.old) }
    requires good_incoming { GoodIncoming max_ack_payload (incoming (state_of guest.old)) }
    ensures { left result (state_of guest.new) page.new ≡ read_on (state_of guest.old) page.old unread }
{
    let rsp_cons = guest.incoming.cons;
    guest.incoming.receive(
        &page[..],
        page::RESPONSES,
        &mut guest.header,
        &mut guest.payload,
        unread,
    );
    let Ok(seen) = ack_progress::look(guest) else {
        guest.phase = FAILED;
        guest.incoming.taken = 0;
        guest.incoming.cons = rsp_cons;
        return Err(Refusal::AckRefused);
    };
    let progress = match seen {
        None => Progress::Pending,
        Some(ack) => {
            guest.phase = IDLE;
            guest.incoming.taken = 0;
            Progress::Acked(ack)
        }
    };
    guest_writes::write_counts(guest, page);
    Ok(progress)
}
