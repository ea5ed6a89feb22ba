// The entries of a mapping that a case gives.
ghost use Rattle.std.specs.Prelude.{◌≤◌};

// The most entries of a case.
pub const MAX_GIVEN: usize = 256;

// So many entries, from eight octets each behind the first ones. Where more are asked than are given, those given come again,
// so that a long mapping needs a short case.
pub fn entries_in(given: &[u8], first: usize, count: usize) -> [u64; MAX_GIVEN]
    requires { (first ≤ 2) × (count ≤ 256) }
{
    let mut entries = [0; MAX_GIVEN];
    if given.len() < first + 8 {
        return entries;
    }
    let given_entries = (given.len() - first) / 8;
    for k in 0..count {
        entries[k] = octets::read_u64(given, first + k % given_entries * 8);
    }
    entries
}
