// Bits of words, numbered from the first word's lowest on.
ghost use Rattle.std.specs.Prelude.{◌≡◌, ◌+◌, ◌*◌, ◌/◌, ◌<◌, ◌≤◌, length};
ghost use Rattle.realm_pools.specs.Inside.Places.{bit_of, any_in, with_bit, with_place, IsFirst, IsFirstBefore, IsSet};

/// The first bit from one on that is 1, where the first word behind its own that isn't 0 is given.
pub(crate) fn first_bit(words: &[u64], from: usize, next_word: Option<usize>) -> Option<usize>
    requires few { length words.now ≤ 1025 }
    requires next { IsFirst (any_in words.now) (from / 64 + 1) next_word }
    ensures { IsFirst (bit_of words.now) from result }
{
    match first_bit_of_word(words, from) {
        Some(bit) => Some(bit),
        None => {
            let word = next_word?;
            Some(64 * word + words[word].trailing_zeros() as usize)
        }
    }
}

// The first bit from one on that is 1, of its word.
fn first_bit_of_word(words: &[u64], from: usize) -> Option<usize>
    requires { length words.now ≤ 1025 }
    ensures { IsFirstBefore (bit_of words.now) from (64 * (from / 64 + 1)) result }
{
    let word = words.get(from / 64).copied().unwrap_or(0) >> (from % 64);
    if word == 0 {
        None
    } else {
        Some(from + word.trailing_zeros() as usize)
    }
}

/// A bit becomes 1, or 0.
pub(crate) fn set_bit(words: &mut [u64], place: usize, one: bool)
    requires { place / 64 < length words.old }
    ensures value { words.new ≡ with_place words.old place one }
    ensures set { IsSet words.old words.new place one }
{
    words[place / 64] = with_bit(words[place / 64], place % 64, one);
}

fn with_bit(word: u64, bit: usize, one: bool) -> u64
    requires { bit < 64 }
    ensures { result ≡ with_bit word bit one }
{
    let mask = 1u64 << bit;
    if one { word | mask } else { word & !mask }
}
