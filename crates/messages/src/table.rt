// The mapping table of a set mapping request: every entry is judged first, and only then is the table built, as a new array. So a
// late bad entry leaves no half table.
ghost use Rattle.std.specs.Prelude.{◌≡◌, ◌*◌, ◌≤◌};
ghost use Rattle.octets.specs.Prelude.{length};
ghost use Rattle.messages.specs.Wire.{field_size};
ghost use Rattle.messages.specs.Settings.{max_entries, EachBelow, mapping_of};
ghost use Rattle.messages.specs.Requests.{entries_in, all_below};

use crate::{FIELD, MAX_ENTRIES, Mapping};

// Whether each of the first `count` entries of the payload is below the queue count. Without a way out of the loop the compiler takes
// many entries at once.
pub fn all_below(payload: &[u8], count: u8, queues: u8) -> bool
    requires { count * field_size ≤ length payload.now }
    ensures { result ≡ all_below queues (entries_in count payload.now) }
{
    let mut below = true;
    for k in 0..count {
        // All eight octets count: a high one makes the queue number large.
        let queue = octets::read_u64(payload, k as usize * FIELD);
        below &= queue < queues as u64;
    }
    below
}

// The mapping of the first `count` entries of the payload, each of which fits an octet. Without a test in the loop the compiler
// takes many entries at once.
pub fn build_table(payload: &[u8], count: u8) -> Mapping
    requires { (count * field_size ≤ length payload.now) × (count ≤ max_entries) × EachBelow 256 (entries_in count payload.now) }
    ensures { result ≡ mapping_of (entries_in count payload.now) }
{
    let mut entries = [0; MAX_ENTRIES];
    for k in 0..count {
        entries[k as usize] = octets::read_u64(payload, k as usize * FIELD) as u8;
    }
    Mapping { entries, count }
}
