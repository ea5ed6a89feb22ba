// The writing side of either end: a message written into an area, as far as it fits.
ghost use Rattle.std.specs.Prelude.{◌≡◌, ◌+◌, ◌^◌, ◌≤◌, ◌<◌};
ghost use Rattle.octets.specs.Prelude.{length, ltb};
ghost use Rattle.page.specs.Page.{area_size, put};
ghost use Rattle.ring.specs.Writing.{sent, sent_octets, fitting, outgoing_in};

// How many octets the message has and how many of them are written, and the own count of octets written, which is a 32-bit
// count as on the page. C reads the fields, so they are its numbers; the octets stand elsewhere in its struct. What holds of them is
// asked in clauses and is no invariant of the type, since C lends a setup a struct with any numbers in it.
#[repr(C)]
#[derive(Clone, Copy, Default)]
pub struct Sending {
    pub length: u64,
    pub written: u64,
    pub prod: u64,
}

impl Sending {
    // Whether octets of the message are still to be written.
    pub fn owes(&self) -> bool
        ensures { result ≡ ltb self.now.written self.now.length }
    {
        self.written < self.length
    }

    // Writes as many octets of the message as fit into `room` octets of the area at `area`.
    pub fn send(&mut self, page: &mut [u8], area: usize, octets: &[u8], room: u32)
        requires area_in_page { (area + area_size ≤ length page.old) × (room ≤ area_size) }
        requires written_in_message { (self.old.written ≤ self.old.length) × (self.old.length ≤ length octets.now)
            × (self.old.prod < 2 ^ 32) }
        ensures { let o = outgoing_in self.old octets.now in
            (outgoing_in self.new octets.now ≡ sent o (fitting o room))
            × (page.new ≡ put area page.old o.prod (sent_octets o (fitting o room))) }
    {
        let n = (self.length - self.written).min(room as u64);
        let from = self.written as usize;
        areas::write_area(
            page,
            area,
            self.prod as u32,
            &octets[from..from + n as usize],
        );
        self.written += n;
        self.prod = (self.prod as u32).wrapping_add(n as u32) as u64;
    }
}
