// Octets in slices: a copy, and little-endian numbers at a place. What more than one crate needs, and no more.
#![tactic(auto)]

ghost use Rattle.std.specs.Prelude.{◌≡◌, ◌+◌, ◌≤◌, ◌++◌};
ghost use Rattle.octets.specs.Prelude.{length, take, drop, sets};
ghost use Rattle.octets.specs.Numbers.{number_at, octets_of};

// Octets of a word.
const WORD: usize = 8;

// Copies src over dst, which is as long: a word at a time as far as that goes, and the rest octet by octet. Where the compiler does
// not know the length, the library's `copy_from_slice` becomes a call of memmove, and a C host is to give memcpy and memset alone.
pub fn copy(dst: &mut [u8], src: &[u8])
    requires { length src.now ≡ length dst.old }
    ensures { dst.new ≡ src.now }
{
    let done = copy_words(dst, src);
    copy_rest(dst, src, done);
}

// Copies as many octets as whole words have, and answers how many.
fn copy_words(dst: &mut [u8], src: &[u8]) -> usize
    requires { length src.now ≡ length dst.old }
    ensures { (dst.new ≡ take result src.now ++ drop result dst.old) × (result ≤ length src.now) }
{
    let words = src.len() / WORD;
    for k in 0..words {
        write_u64(dst, k * WORD, read_u64(src, k * WORD));
    }
    words * WORD
}

// Copies the octets from `from` on, of which those before are there already.
fn copy_rest(dst: &mut [u8], src: &[u8], from: usize)
    requires src_len { (length src.now ≡ length dst.old) × (from ≤ length src.now) }
    requires dst_value { dst.old ≡ take from src.now ++ drop from dst.old }
    ensures { dst.new ≡ src.now }
{
    for i in from..src.len() {
        dst[i] = src[i];
    }
}

// The number in the four octets from `at` on. Four octets and eight have two functions, as they have in the library: one over
// both, which are two types, would be a trait with these same two bodies.
pub fn read_u32(octets: &[u8], at: usize) -> u32
    requires { at + 4 ≤ length octets.now }
    ensures { result ≡ number_at 4 octets.now at }
{
    u32::from_le_bytes([octets[at], octets[at + 1], octets[at + 2], octets[at + 3]])
}

// The number in the eight octets from `at` on.
pub fn read_u64(octets: &[u8], at: usize) -> u64
    requires { at + 8 ≤ length octets.now }
    ensures { result ≡ number_at 8 octets.now at }
{
    u64::from_le_bytes([
        octets[at],
        octets[at + 1],
        octets[at + 2],
        octets[at + 3],
        octets[at + 4],
        octets[at + 5],
        octets[at + 6],
        octets[at + 7],
    ])
}

// Puts v into the four octets from `at` on.
pub fn write_u32(octets: &mut [u8], at: usize, v: u32)
    requires { at + 4 ≤ length octets.old }
    ensures { octets.new ≡ sets octets.old at (octets_of 4 v) }
{
    octets[at..at + 4].copy_from_slice(&v.to_le_bytes());
}

// Puts v into the eight octets from `at` on.
pub fn write_u64(octets: &mut [u8], at: usize, v: u64)
    requires { at + 8 ≤ length octets.old }
    ensures { octets.new ≡ sets octets.old at (octets_of 8 v) }
{
    octets[at..at + 8].copy_from_slice(&v.to_le_bytes());
}
