// What a call of the guest's end finds on the page.
ghost use Rattle.std.specs.Prelude.{◌≡◌, ◌≤◌, IfOk};
ghost use Rattle.octets.specs.Prelude.{length};
ghost use Rattle.page.specs.Page.{page_size, area_size};
ghost use Rattle.guest_steps.specs.Guest.{state_of};
ghost use Rattle.guest_steps.specs.Calls.{found};
ghost use Rattle.guest_steps.specs.Inner.{CountsFit, finding_of};

use crate::{Counts, FAILED, Guest, Refusal};
use page::{AREA, PageRefusal, REQ_CONS, RSP_PROD};

impl Guest {
    // Looks at the page's length, at both counts of the host, and at whether an ack was refused, in this order. The own req_prod
    // and rsp_cons count, whatever the page says of them.
    #[tactic(auto, unfolding(crate::specs::Calls::found))]
    pub fn find(&self, page: &[u8]) -> Result<Counts, Refusal>
        requires { CountsFit (state_of self.now) }
        ensures value { finding_of result ≡ found (state_of self.now) page.now }
        ensures within { IfOk result (λ counts. (length page.now ≡ page_size) × (counts.room ≤ area_size) × (counts.unread ≤ area_size)) }
    {
        if page.len() != page::PAGE {
            return Err(Refusal::Page(PageRefusal::PageLength));
        }
        let unread_requests = page::unread_by_other(page, REQ_CONS, self.outgoing.prod as u32);
        if unread_requests > AREA {
            return Err(Refusal::Page(PageRefusal::RequestCount));
        }
        let unread = page::unread_here(page, RSP_PROD, self.incoming.cons as u32);
        if unread > AREA {
            return Err(Refusal::Page(PageRefusal::ResponseCount));
        }
        if self.phase == FAILED {
            return Err(Refusal::AckRefused);
        }
        Ok(Counts {
            room: AREA - unread_requests,
            unread,
        })
    }
}
