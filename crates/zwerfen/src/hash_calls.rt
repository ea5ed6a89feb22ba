// The hash and the two-way question.
ghost use Rattle.std.specs.Prelude.{◌≡◌};
ghost use Rattle.octets.specs.Outcome.{number_of, placed, itself};
ghost use Rattle.toeplitz.specs.Hash.{hash_outcome};
ghost use Rattle.toeplitz.specs.TwoWay.{two_way_outcome};
ghost use Rattle.questions.specs.Answers.{meets, bit_told};

// The hash of the input under the key.
#[unsafe(no_mangle)]
pub extern "C" fn zwerfen_hash(key: &[u8], input: &[u8], hash: &mut u32) -> u32
    ensures value { result ≡ number_of (hash_outcome key.now input.now) }
    ensures hash_after { hash.new ≡ placed itself (hash_outcome key.now input.now) hash.old }
{
    questions::hash(key, input, hash)
}

// Whether the two directions of every conversation have one hash under the key, and else the lowest bit that tells. C asks by number.
#[unsafe(no_mangle)]
pub extern "C" fn zwerfen_two_way(
    key: &[u8],
    hash_type: u32,
    meet: &mut u32,
    bit: &mut usize,
) -> u32
    ensures value { result ≡ number_of (two_way_outcome key.now hash_type) }
    ensures meet_after { meet.new ≡ placed meets (two_way_outcome key.now hash_type) meet.old }
    ensures bit_after { bit.new ≡ placed bit_told (two_way_outcome key.now hash_type) bit.old }
{
    questions::two_way(key, hash_type, meet, bit)
}
