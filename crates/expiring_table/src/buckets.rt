// Which bucket a key is in.
ghost use Rattle.std.specs.Prelude.{◌≡◌, ◌<◌, ◌^◌};
ghost use Rattle.expiring_table.specs.Inside.Buckets.{hash_of, bucket_in};

use crate::seed::Seed;

/// The hash of a key: a sum of its four words of 32 bits, each times a part of the seed.
fn hash_of(seed: &Seed, key: u128) -> u32
    ensures { result ≡ hash_of seed.now key }
{
    let first = seed.first.wrapping_mul((key % 0x1_0000_0000) as u64);
    let second = seed
        .second
        .wrapping_mul((key / 0x1_0000_0000 % 0x1_0000_0000) as u64);
    let third = seed
        .third
        .wrapping_mul((key / 0x1_0000_0000_0000_0000 % 0x1_0000_0000) as u64);
    let fourth = seed
        .fourth
        .wrapping_mul((key / 0x1_0000_0000_0000_0000_0000_0000) as u64);
    let sum = seed
        .base
        .wrapping_add(first)
        .wrapping_add(second)
        .wrapping_add(third)
        .wrapping_add(fourth);
    (sum / 0x1_0000_0000) as u32
}

/// The bucket of a key, of so many.
#[tactic(auto, using(crate::proofs::Changes::bucket_small))]
pub(crate) fn bucket_in(seed: &Seed, width: usize, key: u128) -> u32
    requires some { 0 < width }
    requires few { width < 2 ^ 32 }
    ensures value { result ≡ bucket_in seed.now width key }
    ensures within { result < width }
{
    (u64::from(hash_of(seed, key)) * width as u64 / 0x1_0000_0000) as u32
}
