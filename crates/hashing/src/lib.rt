// The hash call: the XOR of the windows at the set input bits. Key and input are read in place, and no array is made.
#![tactic(auto)]

ghost use Rattle.octets.specs.Outcome.{value_or};
ghost use Rattle.std.specs.Prelude.{◌≡◌, ◌+◌, ◌*◌, ◌<◌, ◌≤◌};
ghost use Rattle.octets.specs.Prelude.{cond, length, bit_xor};
ghost use Rattle.toeplitz.specs.Hash.{key_length, max_input, published_hash, hash_outcome, hash_outcome_of};
ghost use Rattle.toeplitz.specs.Inner.{hash_below};

use toeplitz::{HashRefusal, KEY_LENGTH, MAX_INPUT, is_set, next_window, octet_window};

// The published hash of the input under the key.
pub fn hash(key: &[u8], input: &[u8]) -> Result<u32, HashRefusal>
    ensures { hash_outcome_of result ≡ hash_outcome key.now input.now }
{
    if key.len() != KEY_LENGTH {
        return Err(HashRefusal::KeyLength);
    }
    if input.len() > MAX_INPUT {
        return Err(HashRefusal::InputLength);
    }
    Ok(hash_of(key, input))
}

// The published hash of the input under the key, or `otherwise` where `hash` refuses. A number is answered in a register,
// a Result on the stack, so this is no `unwrap_or` over `hash`.
pub fn hash_or(key: &[u8], input: &[u8], otherwise: u32) -> u32
    ensures { result ≡ value_or otherwise (hash_outcome key.now input.now) }
{
    if key.len() == KEY_LENGTH && input.len() <= MAX_INPUT {
        return hash_of(key, input);
    }
    otherwise
}

// The hash of a key and an input that no refusal meets. Parts are lent on, and not the two slices themselves, so the
// compiler keeps these in registers.
fn hash_of(key: &[u8], input: &[u8]) -> u32
    requires { (length key.now ≡ key_length) × (length input.now ≤ max_input) }
    ensures { result ≡ published_hash key.now input.now }
{
    hash_octets(&key[0..key.len()], &input[0..input.len()])
}

// The hash, an octet of the input at a time. No turn waits for a window of the turn before, so the compiler makes of four
// turns one.
fn hash_octets(key: &[u8], input: &[u8]) -> u32
    requires { (length key.now ≡ key_length) × (length input.now ≤ max_input) }
    ensures { result ≡ published_hash key.now input.now }
{
    let mut sum = 0;
    for at in 0..input.len() {
        sum = add_octet(key, input, at, sum);
    }
    sum
}

// The eight input bits of the octet at `at`, with one step of the window for each. The step comes first: with the sum before
// it, the compiler keeps a variable on the stack.
fn add_octet(key: &[u8], input: &[u8], at: usize, before: u32) -> u32
    requires key_len { (length key.now ≡ key_length) × (at < length input.now) × (at < max_input) }
    requires before_value { before ≡ hash_below key.now input.now (at * 8) }
    ensures { result ≡ hash_below key.now input.now (at * 8 + 8) }
{
    let mut window = octet_window(key, at);
    let mut sum = before;
    for j in 0..8 {
        let here = window;
        window = next_window(key, here, at * 8 + j);
        sum = add_window(sum, is_set(input, at * 8 + j), here);
    }
    sum
}

// The sum with the window added where the bit is set.
fn add_window(sum: u32, set: bool, window: u32) -> u32
    ensures { result ≡ cond set (bit_xor sum window) sum }
{
    if set { sum ^ window } else { sum }
}
