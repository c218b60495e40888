//! The Internet checksum: the complement of the one's complement sum of 16-bit words (RFC 1071).
#![tactic(auto)]

ghost use Rattle.std.specs.Prelude.{◌≡◌, ◌==◌, ◌+◌, ◌*◌, ◌/◌, ◌%◌, ◌^◌, ◌<◌, ◌≤◌, ◌++◌, length, IsPermutation};
ghost use Rattle.gate_base.specs.Prelude.{u16_at, with_u16};
ghost use Rattle.gate_base.specs.declared.protocol.TheConstants.{LONGEST_DATAGRAM};
ghost use Rattle.inet_sum.specs.Sum.{words, total, fold_of, checksum, IsRight, is_right, pseudo_header};

use byteorder::{ByteOrder, LittleEndian};
use gate_base::{Addr, get_u16};

/// The checksum of octets (RFC 1071, 1). It is 0 exactly where they hold their right checksum.
#[tactic(auto, using(crate::proofs::Words::zero_if_right))]
pub fn sum(octets: &[u8]) -> u16
    ensures value { result ≡ checksum octets.now }
    ensures right { (result == 0) ≡ is_right octets.now }
{
    if octets.len() == 20 {
        return 65_535 - fold(256 * five_sum(octets));
    }
    65_535 - folded_with(0, octets)
}

/// The checksum of the octets of a TCP or UDP segment behind its pseudo header (RFC 768, RFC 9293, 3.1).
/// There are at most 65,535 octets, so that their number fits its field.
#[inline(always)]
pub fn pseudo_sum(source: Addr, destination: Addr, protocol: u8, octets: &[u8]) -> u16
    requires { length octets.now ≤ LONGEST_DATAGRAM }
    ensures value { result
        ≡ checksum (pseudo_header source.0 destination.0 protocol (length octets.now)
        ++ octets.now) }
    ensures right { (result == 0)
        ≡ is_right (pseudo_header source.0 destination.0 protocol (length octets.now)
        ++ octets.now) }
{
    let addresses = halves(source.0) + halves(destination.0);
    let header = addresses + u64::from(protocol) + octets.len() as u64;
    65_535 - folded_with(header, octets)
}

/// The checksum of a segment for other addresses, where the checksum in its field is right for these: the field is adjusted,
/// and no other octet is read (RFC 1624, 3).
pub fn moved_sum(
    segment: &[u8],
    place: usize,
    protocol: u8,
    from: (Addr, Addr),
    to: (Addr, Addr),
) -> u16
    requires even { place % 2 ≡ 0 }
    requires within { place + 2 ≤ length segment.now }
    requires short { length segment.now ≤ LONGEST_DATAGRAM }
    requires right { IsRight (pseudo_header from.0.0 from.1.0 protocol
        (length segment.now) ++ segment.now) }
    ensures { let empty = with_u16 place 0 segment.now in
        result
        ≡ checksum (pseudo_header to.0.0 to.1.0 protocol (length empty) ++ empty) }
{
    let field = u64::from(get_u16(segment, place));
    let old = halves(from.0.0) + halves(from.1.0);
    let new = halves(to.0.0) + halves(to.1.0);
    65_535 - fold(new + (5 * 65_535 - old) + (65_535 - field))
}

/// The checksum of octets whose field holds their right checksum already, and isn't FFFF: it is that field, and no octet is read.
pub fn kept_sum(octets: &[u8], place: usize) -> u16
    requires even { place % 2 ≡ 0 }
    requires within { place + 2 ≤ length octets.now }
    requires right { IsRight octets.now }
    requires field { u16_at place octets.now < 65535 }
    ensures { result ≡ checksum (with_u16 place 0 octets.now) }
{
    get_u16(octets, place)
}

/// A list with its checksum in a field that was 0 has the sum FFFF, and so is right.
pub fn written_is_right(octets: &[u8], place: usize)
    requires even { place % 2 ≡ 0 }
    requires within { place + 2 ≤ length octets.now }
    requires empty { u16_at place octets.now ≡ 0 }
    ensures { IsRight (with_u16 place (checksum octets.now) octets.now) }
{}

/// The order of the words makes no difference.
pub fn any_order(octets: &[u8], others: &[u8])
    requires { IsPermutation (words octets.now) (words others.now) }
    ensures { checksum octets.now ≡ checksum others.now }
{}

// The sum of both words of an address.
fn halves(address: u32) -> u64
    ensures words { result ≡ address / 65536 + address % 65536 }
    ensures fits { address < 2 ^ 32 }
{
    u64::from(address / 65_536 + address % 65_536)
}

// The one's complement sum of a number and the words of octets. Eight octets are added up at a time, the lowest first: 256 times
// such a number folds as its words do (RFC 1071, 2, (B)).
fn folded_with(start: u64, octets: &[u8]) -> u16
    requires { start < 2 ^ 30 }
    ensures { result ≡ fold_of (start + total octets.now) }
{
    let (eights, last) = octets.split_at(octets.len() / 8 * 8);
    fold(start + 256 * (narrowed(eights_sum(eights)) + last_sum(last)))
}

// The sum of octets as numbers of eight octets.
fn eights_sum(octets: &[u8]) -> u128
    requires { length octets.now % 8 ≡ 0 }
    ensures { fold_of (256 * result) ≡ fold_of (total octets.now) }
{
    let mut sum: u128 = 0;
    for eight in octets.chunks_exact(8) {
        sum += u128::from(LittleEndian::read_u64(eight));
    }
    sum
}

// The sum of twenty octets as five numbers, as most IPv4 headers have them.
fn five_sum(octets: &[u8]) -> u64
    requires { length octets.now ≡ 20 }
    ensures folds { fold_of (256 * result) ≡ fold_of (total octets.now) }
    ensures small { result < 2 ^ 35 }
{
    four_of(&octets[..4])
        + four_of(&octets[4..8])
        + four_of(&octets[8..12])
        + four_of(&octets[12..16])
        + four_of(&octets[16..20])
}

fn four_of(octets: &[u8]) -> u64
    requires { length octets.now ≡ 4 }
    ensures folds { fold_of (256 * result) ≡ fold_of (total octets.now) }
    ensures small { result < 2 ^ 32 }
{
    u64::from(LittleEndian::read_u32(octets))
}

// A number of 64 bits that folds as this one: 2^64 folds as 1.
fn narrowed(sum: u128) -> u64
    ensures folds { fold_of result ≡ fold_of sum }
    ensures small { result < 2 ^ 34 }
{
    let high = (sum / 18_446_744_073_709_551_616) as u64;
    let low = (sum % 18_446_744_073_709_551_616) as u64;
    shortened(high) + shortened(low)
}

// A number of 33 bits that folds as this one: 2^32 folds as 1.
#[tactic(auto, using(crate::proofs::Words::fold_halves))]
fn shortened(sum: u64) -> u64
    ensures folds { fold_of result ≡ fold_of sum }
    ensures small { result < 2 ^ 33 }
{
    sum / 4_294_967_296 + sum % 4_294_967_296
}

// The sum of fewer than eight octets, as a number of four and one of the rest.
fn last_sum(octets: &[u8]) -> u64
    requires { length octets.now < 8 }
    ensures folds { fold_of (256 * result) ≡ fold_of (total octets.now) }
    ensures small { result < 2 ^ 33 }
{
    if octets.len() < 4 {
        return few_sum(octets);
    }
    let (four, few) = octets.split_at(4);
    u64::from(LittleEndian::read_u32(four)) + few_sum(few)
}

// The sum of fewer than four octets.
fn few_sum(octets: &[u8]) -> u64
    requires { length octets.now < 4 }
    ensures folds { fold_of (256 * result) ≡ fold_of (total octets.now) }
    ensures small { result < 2 ^ 17 }
{
    match octets {
        [low, high, last] => u64::from(*low) + 256 * u64::from(*high) + u64::from(*last),
        [low, high] => u64::from(*low) + 256 * u64::from(*high),
        [last] => u64::from(*last),
        _ => 0,
    }
}

#[tactic(auto, unfolding(crate::specs::Sum::fold_of))]
fn fold(sum: u64) -> u16
    ensures { result ≡ fold_of sum }
{
    if sum == 0 {
        0
    } else {
        ((sum - 1) % 65_535 + 1) as u16
    }
}
