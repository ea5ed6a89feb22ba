// The own counts of an interface, which an event that is not refused writes back.
ghost use Rattle.std.specs.Prelude.{◌≡◌, ◌^◌, ◌<◌};
ghost use Rattle.octets.specs.Prelude.{length};
ghost use Rattle.page.specs.Page.{page_size, counted};

use crate::Interface;

impl Interface {
    // Writes both own counts to their places, which are others than those of a guest.
    pub fn write_counts(&self, page: &mut [u8])
        requires { (length page.old ≡ page_size) × (self.now.incoming.cons < 2 ^ 32) × (self.now.outgoing.prod < 2 ^ 32) }
        ensures { page.new ≡ counted page.old self.now.incoming.cons self.now.outgoing.prod }
    {
        page::write_counts(
            page,
            page::REQ_CONS,
            self.incoming.cons as u32,
            page::RSP_PROD,
            self.outgoing.prod as u32,
        );
    }
}
