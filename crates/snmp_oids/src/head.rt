// The octets before an element's content: its tag and its length (X.690, 8.1.3).
ghost use Rattle.std.specs.Prelude.{◌≡◌, ◌+◌, ◌*◌, ◌^◌, ◌<◌, ◌≤◌, ◌++◌, take, drop, length};
ghost use Rattle.snmp_oids.specs.Elements.{octets_for, shortest, head_for};
ghost use Rattle.snmp_oids.specs.Inside.Written.{with_octets};

use crate::put::put;
use byteorder::{BigEndian, ByteOrder};

/// The fewest octets that stand before content: a tag and a length.
pub(crate) const LEAST_HEAD: usize = 2;

// In how many octets a number below 2^40 is written, the fewest.
fn octets_for(count: usize) -> usize
    ensures { result ≡ octets_for count }
{
    match count {
        0..=0xff => 1,
        0x100..=0xffff => 2,
        0x1_0000..=0xff_ffff => 3,
        0x100_0000..=0xffff_ffff => 4,
        _ => 5,
    }
}

// How many octets the shortest form of a length has.
fn shortest_size(count: usize) -> usize
    ensures { result ≡ length (shortest count) }
{
    if count < 128 {
        1
    } else {
        1 + octets_for(count)
    }
}

// Writes the shortest form of a length at a place. The result is the place behind it.
fn put_shortest(count: usize, target: &mut [u8], place: usize) -> usize
    requires fits { count < 2 ^ 40 }
    requires room { place + length (shortest count) ≤ length target.old }
    ensures written { target.new ≡ with_octets place (shortest count) target.old }
    ensures end { result ≡ place + length (shortest count) }
{
    if count < 128 {
        return put(&[count as u8], target, place);
    }
    let size = octets_for(count);
    let mut octets = [0; 6];
    octets[0] = 128 + size as u8;
    BigEndian::write_uint(&mut octets[1..], count as u64, size);
    put(&octets[..size + 1], target, place)
}

// How many octets stand before content of another size, where these stood before that of the old size.
fn head_size(head: &[u8], old: usize, new: usize) -> usize
    requires head { 2 ≤ length head.now }
    ensures { result ≡ length (head_for head.now old new) }
{
    if new == old {
        head.len()
    } else {
        1 + shortest_size(new)
    }
}

// Writes what is to stand before content of another size. The result is the place behind it.
fn put_head(head: &[u8], old: usize, new: usize, target: &mut [u8], place: usize) -> usize
    requires head { 2 ≤ length head.now }
    requires fits { new < 2 ^ 40 }
    requires room { place + length (head_for head.now old new) ≤ length target.old }
    ensures written { target.new
        ≡ with_octets place (head_for head.now old new) target.old }
    ensures end { result ≡ place + length (head_for head.now old new) }
{
    if new == old {
        return put(head, target, place);
    }
    let place = put(&head[..1], target, place);
    put_shortest(new, target, place)
}

// Moves so many octets up, or leaves them where they stand.
fn move_up(target: &mut [u8], from: usize, count: usize, to: usize)
    requires up { from ≤ to }
    requires room { to + count ≤ length target.old }
    ensures { target.new
        ≡ with_octets to (take count (drop from target.old)) target.old }
{
    if from < to {
        target.copy_within(from..from + count, to);
    }
}

/// Writes what is to stand before content of another size at a place, where that content stands `LEAST_HEAD` octets behind the
/// place, and moves it up as far as it must. The result is the place behind the content.
pub(crate) fn put_before(
    head: &[u8],
    old: usize,
    new: usize,
    target: &mut [u8],
    place: usize,
) -> usize
    requires head { 2 ≤ length head.now }
    requires fits { new < 2 ^ 40 }
    requires room { place + length (head_for head.now old new) + new
        ≤ length target.old }
    ensures written { target.new
        ≡ with_octets place
        (head_for head.now old new ++ take new (drop (place + 2) target.old))
        target.old }
    ensures end { result ≡ place + length (head_for head.now old new) + new }
{
    let size = head_size(head, old, new);
    move_up(target, place + LEAST_HEAD, new, place + size);
    put_head(head, old, new, target, place) + new
}
