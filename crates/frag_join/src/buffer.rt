// The octets that are held of one datagram.
ghost use Rattle.std.specs.Prelude.{◌≡◌, ◌≤◌, ◌<◌, ◌+◌, ◌++◌, ◌&&◌, [], Some, IfOk, true, false, not, is_some, length, take, drop, replicate, ◌-◌, ◌||◌};
ghost use Rattle.std.specs.Option.{option_or};
ghost use Rattle.frag_join.specs.Places.{count_below};
ghost use Rattle.frag_join.specs.Fragments.{octet_in, end_of, covers};
ghost use Rattle.frag_join.specs.Coverage as known;
ghost use Rattle.frag_join.specs.Inside.Held.{header_held};

use crate::fragment::FragmentView;
use gate_base::{LONGEST_DATAGRAM, OutOfMemory, get_u16, put_u16};
use inet_sum::sum;
use std::alloc::Global;
use std::marker::Model;

/// The units of 8 octets of the longest payload.
const UNITS: usize = 8_190;

/// What is held of one datagram: its octets in their places behind the 20 of its header, and which units of 8 octets are
/// held (RFC 815). It is seen as what is known of the datagram.
#[derive(Drop)]
pub struct Buffer {
    octets: Vec<u8>,
    held: Vec<bool>,
    // the place behind the greatest that is held
    reach: usize,
    // how many places are held
    count: usize,
    // whether the last octet is held
    ended: bool,
    // whether the header is held
    headed: bool,
}

impl Model for Buffer {
    ghost use Rattle.frag_join.specs.Coverage.{Coverage};

    ghost Value = { Coverage };

    ghost use Rattle.frag_join.specs.Inside.Whole.{known_inside, IsWhole};

    ghost view = { known_inside };

    ghost invariant = { IsWhole };
}

impl Buffer {
    /// A buffer that holds nothing, with room for the longest datagram. The error is that there is too little memory.
    pub fn new(alloc: Global) -> Result<Buffer, OutOfMemory>
        ensures { IfOk result (λ buffer. buffer ≡ known.nothing) }
    {
        Buffer::with_room(alloc, LONGEST_DATAGRAM, UNITS)
    }

    fn with_room(alloc: Global, octets: usize, units: usize) -> Result<Buffer, OutOfMemory>
        requires octets { octets ≡ LONGEST_DATAGRAM }
        requires units { units ≡ UNITS }
        ensures { IfOk result (λ buffer. buffer ≡ known.nothing) }
    {
        Ok(Buffer {
            octets: vec![in alloc; 0; octets]?,
            held: vec![in alloc; false; units]?,
            reach: 0,
            count: 0,
            ended: false,
            headed: false,
        })
    }

    /// Forgets all that is held. It costs what was held.
    pub fn clear(&mut self)
        ensures { self.new ≡ known.nothing }
    {
        mark(&mut self.held, 0, (self.reach + 7) / 8, false);
        self.reach = 0;
        self.count = 0;
        self.ended = false;
        self.headed = false;
    }

    /// Whether a fragment contradicts itself or what is held. It costs the fragment's own octets.
    pub fn is_bad(&self, fragment: &FragmentView<'_>) -> bool
        ensures { result ≡ known.is_bad self.now fragment.now }
    {
        fragment.is_torn() || self.ends_otherwise(fragment) || self.is_unlike(fragment)
    }

    fn ends_otherwise(&self, fragment: &FragmentView<'_>) -> bool
        ensures { result ≡ known.ends_otherwise self.now fragment.now }
    {
        let end = fragment.end();
        if fragment.more() {
            self.ended && self.reach < end
        } else {
            (self.ended && end != self.reach) || end < self.reach
        }
    }

    fn is_unlike(&self, fragment: &FragmentView<'_>) -> bool
        ensures { result ≡ known.is_unlike self.now fragment.now }
    {
        let start = fragment.start();
        let payload = fragment.payload();
        let mut unlike = false;
        for place in start..start + payload.len() {
            if differ(self.octet(place), payload[place - start]) {
                unlike = true;
            }
        }
        unlike
    }

    // The octet that is held at a place of the payload.
    fn octet(&self, place: usize) -> Option<u8>
        ensures { result ≡ known.octet_of self.now place }
    {
        if place < self.reach && self.held[place / 8] {
            Some(self.octets[20 + place])
        } else {
            None
        }
    }

    /// Puts a fragment into its place, which doesn't contradict itself or what is held.
    pub fn put(&mut self, fragment: &FragmentView<'_>)
        requires { known.is_bad self.old fragment.now ≡ false }
        ensures { self.new ≡ known.added self.old fragment.now }
    {
        let start = fragment.start();
        let end = fragment.end();
        self.count += self.fresh(fragment);
        write(&mut self.octets, 20 + start, fragment.payload());
        mark(&mut self.held, start / 8, (end + 7) / 8, true);
        self.headed = put_header(&mut self.octets, self.headed, fragment);
        self.reach = self.reach.max(end);
        self.ended = is_either(self.ended, !fragment.more());
    }

    // How many places a fragment covers that aren't held.
    fn fresh(&self, fragment: &FragmentView<'_>) -> usize
        ensures few { result ≤ end_of fragment.now }
        ensures value { result
            ≡ count_below
            (λ place. covers fragment.now place
            && not (is_some (known.octet_of self.now place)))
            (end_of fragment.now) }
    {
        let mut count = 0;
        for place in fragment.start()..fragment.end() {
            if self.octet(place).is_none() {
                count += 1;
            }
        }
        count
    }

    /// Whether all of the datagram is held.
    pub fn is_complete(&self) -> bool
        ensures { result ≡ known.is_complete self.now }
    {
        self.ended && self.count == self.reach
    }

    /// Makes the header that of the whole datagram, which is complete (RFC 791, 3.2).
    pub fn seal(&mut self)
        requires { known.is_complete self.old ≡ true }
        ensures { self.new ≡ known.sealed self.old }
    {
        let total = (20 + self.reach) as u16;
        seal_head(&mut self.octets, total);
    }

    /// The header that is held, and the payload behind it, of a datagram that is complete.
    pub fn octets(&self) -> &[u8]
        requires { known.is_complete self.now ≡ true }
        ensures { result.now ≡ known.spelled self.now }
    {
        &self.octets[..20 + self.reach]
    }
}

// Whether another octet is held.
fn differ(held: Option<u8>, octet: u8) -> bool
    ensures { result ≡ known.are_unlike held (Some octet) }
{
    matches!(held, Some(held) if held != octet)
}

// Writes octets from a place on.
fn write(target: &mut Vec<u8>, place: usize, octets: &[u8])
    requires { place + length octets.now ≤ length target.old.items }
    ensures { target.new.items
        ≡ take place target.old.items
        ++ (octets.now ++ drop (place + length octets.now) target.old.items) }
{
    target[place..place + octets.len()].copy_from_slice(octets);
}

// Holds the header of a fragment that starts its datagram, unless one is held. Answers whether one is then held.
fn put_header(octets: &mut Vec<u8>, headed: bool, fragment: &FragmentView<'_>) -> bool
    requires { 20 ≤ length octets.old.items }
    ensures header { header_held result octets.new.items
        ≡ option_or (header_held headed octets.old.items)
        (known.header_told fragment.now) }
    ensures first { fragment.now.start ≡ 0 → result ≡ true }
    ensures still { headed ≡ true → result ≡ true }
    ensures rest { drop 20 octets.new.items ≡ drop 20 octets.old.items }
    ensures count { length octets.new.items ≡ length octets.old.items }
{
    if headed || fragment.start() != 0 {
        return headed;
    }
    write(octets, 0, fragment.header());
    true
}

fn is_either(one: bool, other: bool) -> bool
    ensures { result ≡ (one || other) }
{
    one || other
}

// Marks the units from one on up to another as held or not.
fn mark(held: &mut Vec<bool>, from: usize, to: usize, value: bool)
    requires ordered { from ≤ to }
    requires within { to ≤ length held.old.items }
    ensures { held.new.items
        ≡ take from held.old.items
        ++ (replicate (to - from) value ++ drop to held.old.items) }
{
    held[from..to].fill(value);
}

// Makes the 20 octets at the front the header of a whole datagram of this total length.
fn seal_head(octets: &mut Vec<u8>, total: u16)
    requires { 20 ≤ length octets.old.items }
    ensures header { take 20 octets.new.items
        ≡ known.whole_head (take 20 octets.old.items) total }
    ensures rest { drop 20 octets.new.items ≡ drop 20 octets.old.items }
    ensures count { length octets.new.items ≡ length octets.old.items }
{
    let mut head = [0; 20];
    head.copy_from_slice(&octets[..20]);
    put_fields(&mut head, total);
    write(octets, 0, &head);
}

// Gives a header this total length in octets, and clears what makes it a fragment's.
fn put_fields(head: &mut [u8], total: u16)
    requires { length head.old ≡ 20 }
    ensures { head.new ≡ known.whole_head head.old total }
{
    put_u16(head, 2, total);
    let flags = get_u16(head, 6) / 0x4000 * 0x4000;
    put_u16(head, 6, flags);
    put_u16(head, 10, 0);
    let checksum = sum(head);
    put_u16(head, 10, checksum);
}
