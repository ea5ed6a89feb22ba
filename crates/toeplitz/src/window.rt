// The windows of a key: 32 bits each, read in place from the lent octets.
ghost use Rattle.std.specs.Prelude.{◌≡◌, ◌+◌, ◌*◌, ◌<◌, ◌≤◌};
ghost use Rattle.octets.specs.Prelude.{length, eqb};
ghost use Rattle.toeplitz.specs.Hash.{key_length, bit_at, window_at};
ghost use Rattle.toeplitz.specs.Step.{four_octets};

// The weight of a window's top bit.
const TOP_BIT: u32 = 2147483648;

// Whether bit `i` of the octets is set; bit 0 is the top bit of octet 0. It is tested in its octet, which compiled takes less
// than in a wider number.
pub fn is_set(octets: &[u8], i: usize) -> bool
    requires { i < length octets.now * 8 }
    ensures { result ≡ eqb (bit_at octets.now i) 1 }
{
    (octets[i / 8] >> (7 - i % 8)) % 2 == 1
}

// The step: the window at `i + 1`, from the window at `i`. The top bit goes, and the next key bit is drawn in. The bits
// before it in its octet come along unmasked, since the window has them in the same places.
pub fn next_window(key: &[u8], window: u32, i: usize) -> u32
    requires { (length key.now ≡ key_length) × (i < 288) × (window ≡ window_at key.now i) }
    ensures { result ≡ window_at key.now (i + 1) }
{
    (window % TOP_BIT * 2) | (u32::from(key[i / 8 + 4]) >> (7 - i % 8))
}

// The window at the top bit of octet `a`.
pub fn octet_window(key: &[u8], a: usize) -> u32
    requires { a + 4 ≤ length key.now }
    ensures { result ≡ window_at key.now (a * 8) }
{
    four_octets(key, a)
}

// The four octets from octet `a` on, the first on top.
fn four_octets(key: &[u8], a: usize) -> u32
    requires { a + 4 ≤ length key.now }
    ensures { result ≡ four_octets key.now a }
{
    u32::from_be_bytes([key[a], key[a + 1], key[a + 2], key[a + 3]])
}
