// What keys are spread by.
ghost use Rattle.std.specs.Prelude.{◌≡◌};
ghost use Rattle.expiring_table.specs.Buckets.{drawn, seed_of};

/// What keys are spread by. What a table answers doesn't depend on it. Drawn at random and kept secret, it leaves two keys in one
/// bucket as seldom as chance does, whoever picks the keys.
#[derive(Clone, Copy)]
pub struct Seed {
    pub base: u64,
    pub first: u64,
    pub second: u64,
    pub third: u64,
    pub fourth: u64,
}

impl Seed {
    /// The five numbers that splitmix64 draws from a number.
    pub fn from_number(number: u64) -> Seed
        ensures { result ≡ seed_of number }
    {
        Seed {
            base: drawn(number, 1),
            first: drawn(number, 2),
            second: drawn(number, 3),
            third: drawn(number, 4),
            fourth: drawn(number, 5),
        }
    }
}

// What splitmix64 draws from a number at a turn.
fn drawn(number: u64, turn: u64) -> u64
    ensures { result ≡ drawn number turn }
{
    let state = number.wrapping_add(turn.wrapping_mul(0x9e37_79b9_7f4a_7c15));
    let first = (state ^ (state >> 30)).wrapping_mul(0xbf58_476d_1ce4_e5b9);
    let second = (first ^ (first >> 27)).wrapping_mul(0x94d0_49bb_1331_11eb);
    second ^ (second >> 31)
}
