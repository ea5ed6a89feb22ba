// The counts of a page. Each end keeps its own two and reads the other end's two from the page; all run over from
// 4,294,967,295 to 0. The two differences stand in two functions: which count is the own one says which is taken from which.
ghost use Rattle.std.specs.Prelude.{◌≡◌, ◌+◌, ◌≤◌};
ghost use Rattle.octets.specs.Prelude.{length};
ghost use Rattle.page.specs.Page.{count_in, less, with_count};

// How many octets of an area are unread at this end: the writer's count, which stands at `at`, less the own one.
pub fn unread_here(page: &[u8], at: usize, cons: u32) -> u32
    requires { at + 4 ≤ length page.now }
    ensures { result ≡ less (count_in page.now at) cons }
{
    octets::read_u32(page, at).wrapping_sub(cons)
}

// How many octets written here are unread at the other end: the own count less the reader's, which stands at `at`.
pub fn unread_by_other(page: &[u8], at: usize, prod: u32) -> u32
    requires { at + 4 ≤ length page.now }
    ensures { result ≡ less prod (count_in page.now at) }
{
    prod.wrapping_sub(octets::read_u32(page, at))
}

// Writes the count of octets read to its place, and that of octets written to its own.
pub fn write_counts(page: &mut [u8], cons_at: usize, cons: u32, prod_at: usize, prod: u32)
    requires { (cons_at + 4 ≤ length page.old) × (prod_at + 4 ≤ length page.old) }
    ensures { page.new ≡ with_count (with_count page.old cons_at cons) prod_at prod }
{
    octets::write_u32(page, cons_at, cons);
    octets::write_u32(page, prod_at, prod);
}
