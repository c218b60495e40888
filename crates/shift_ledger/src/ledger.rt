// What was pushed, so far as it is needed.
ghost use Rattle.std.specs.Prelude.{◌≡◌, ◌≤◌, ◌<◌, ◌+◌, ◌^◌, ◌-◌, ◌⊎◌, vec_capacity, ℕ, List, [], ◌∷◌, ◌++◌, length, take, drop, filter, nat_lt, nat_le, max, OnOk, OnErr};
ghost use Rattle.std.specs.VecDeque.{deque_capacity, deque_len};
ghost use Rattle.dialogue.specs.Prelude.{Push, open_in};
ghost use Rattle.dialogue.specs.Places as places;
ghost use Rattle.shift_ledger.specs.Kept.{StandsFor, is_open, fore_of, rear_of, back_of, pushed, pruned, IsButForSpare};
ghost use Rattle.shift_ledger.specs.Answers.{fore_by, rear_by, back_by};
ghost use Rattle.shift_ledger.specs.Sources.{copied, NeedsOnly};

use gate_base::OutOfMemory;
use std::alloc::Global;
use std::collections::VecDeque;
use std::marker::Model;

/// A unit with another image: the places of the first octets of both, the unit's length, and the image.
#[derive(Drop)]
struct ChangedUnit {
    start: u64,
    unit: u64,
    at: u64,
    image: Vec<u8>,
    ghost in_range: { start + unit < 2 ^ 32 },
    ghost image_in_range: { at + length image.items < 2 ^ 32 },
}

/// How the places of a stream belong to those of its image, for octets that stand as they are and changed units that
/// were pushed one behind the other. A changed unit whose image is wholly acknowledged is forgotten, and its memory is let
/// go. The kept units are searched by halving.
///
/// Contracts see what is kept. It stands for each list of pushes, and each greatest acknowledged place of their image, of
/// which it is what has to be kept; every answer holds for each of them.
#[derive(Drop)]
pub struct Ledger {
    // in the order of their places
    changed: VecDeque<ChangedUnit>,
    octets_in: u64,
    octets_out: u64,
}

impl Model for Ledger {
    ghost use Rattle.shift_ledger.specs.Kept.{Kept};

    ghost Value = { Kept };

    ghost use Rattle.shift_ledger.specs.Inside.Whole.{kept_of, IsInOrder};

    ghost view = { kept_of };

    ghost invariant = { IsInOrder };
}

impl Ledger {
    /// A ledger of which nothing was pushed. It takes no memory.
    pub fn new(alloc: Global) -> Ledger
        ensures { StandsFor result [] 0 }
    {
        Ledger {
            changed: VecDeque::new(alloc),
            octets_in: 0,
            octets_out: 0,
        }
    }

    /// Pushes so many octets that stand as they are.
    pub fn push_plain(&mut self, count: u64)
        requires room_in { self.old.octets_in + count < 2 ^ 31 }
        requires room_out { self.old.octets_out + count < 2 ^ 31 }
        ensures stands { (pushes : List Push) (acknowledged : ℕ)
            → StandsFor self.old pushes acknowledged
            → StandsFor self.new (pushes ++ places.Plain count ∷ []) acknowledged }
        ensures exact { self.new ≡ pushed self.old (places.Plain count) }
    {
        self.octets_in += count;
        self.octets_out += count;
    }

    /// Makes room for so many changed units, or finds too little memory, which is only where there was not the room. Nothing
    /// else changes.
    pub fn reserve(&mut self, count: usize) -> Result<(), OutOfMemory>
        ensures room { OnOk result (count ≤ self.new.spare) }
        ensures same { IsButForSpare self.old self.new }
        ensures refused { OnErr result (self.old.spare < count) }
    {
        self.changed.reserve(count)?;
        Ok(())
    }

    /// Pushes a unit of so many octets, at least one, with another image, which isn't empty. There is too little memory only
    /// where no room was reserved; the ledger then stays as it was.
    pub fn push_changed(&mut self, unit: u32, image: Vec<u8>) -> Result<(), OutOfMemory>
        requires some_unit { 1 ≤ unit }
        requires some_image { 1 ≤ length image.items }
        requires room_in { self.old.octets_in + unit < 2 ^ 31 }
        requires room_out { self.old.octets_out + length image.items < 2 ^ 31 }
        ensures stands { OnOk result ((pushes : List Push) (acknowledged : ℕ)
            → StandsFor self.old pushes acknowledged
            → StandsFor self.new (pushes ++ places.Changed unit image.items ∷ [])
            acknowledged) }
        ensures exact { OnOk result (IsButForSpare
            (pushed self.old (places.Changed unit image.items)) self.new) }
        ensures refused { OnErr result (IsButForSpare self.old self.new) }
        ensures reserved { OnErr result (self.old.spare ≡ 0) }
        ensures spare { self.old.spare ≤ self.new.spare + 1 }
    {
        let count = image.len() as u64;
        self.changed.push_back(ChangedUnit {
            start: self.octets_in,
            unit: unit as u64,
            at: self.octets_out,
            image,
        })?;
        self.octets_in += unit as u64;
        self.octets_out += count;
        Ok(())
    }

    /// How many octets were pushed.
    pub fn octets_in(&self) -> u64
        ensures { result ≡ self.now.octets_in }
    {
        self.octets_in
    }

    /// How many octets their image has.
    pub fn octets_out(&self) -> u64
        ensures { result ≡ self.now.octets_out }
    {
        self.octets_out
    }

    /// How many changed units are kept: those whose image isn't wholly acknowledged.
    pub fn len(&self) -> usize
        ensures stands { (pushes : List Push) (acknowledged : ℕ)
            → StandsFor self.now pushes acknowledged
            → result ≡ open_in pushes acknowledged }
        ensures exact { result ≡ length self.now.changed }
    {
        self.changed.len()
    }

    /// The least image place of octet `p`, and the image's end past the last octet; from the first octet on of which not
    /// the whole image is acknowledged.
    pub fn fore(&self, p: u64) -> u64
        ensures exact { result ≡ fore_by self.now p }
        ensures stands { (pushes : List Push) (acknowledged : ℕ)
            → StandsFor self.now pushes acknowledged
            → back_of pushes acknowledged ≤ p
            → result ≡ fore_of pushes p }
    {
        match self.changed.get(self.ended_at(p)) {
            Some(unit) => place_before(unit.at, unit.start, p),
            None => place_before(self.octets_out, self.octets_in, p),
        }
    }

    /// One more than the greatest image place of the octet before `e`. It is 0 for `e` 0, and the image's end past the last
    /// octet. `e` is at or behind the first octet of which not the whole image is acknowledged.
    pub fn rear(&self, e: u64) -> u64
        ensures exact { result ≡ rear_by self.now e }
        ensures stands { (pushes : List Push) (acknowledged : ℕ)
            → StandsFor self.now pushes acknowledged
            → back_of pushes acknowledged ≤ e
            → result ≡ rear_of pushes e }
    {
        match self.changed.get(self.ended_before(e)) {
            Some(unit) if unit.start < e => unit.at + unit.image.len() as u64,
            Some(unit) => place_before(unit.at, unit.start, e),
            None => place_before(self.octets_out, self.octets_in, e),
        }
    }

    /// How many octets, from the first on, have all their image places below `q`; from the greatest acknowledged place to
    /// the image's end.
    pub fn back(&self, q: u64) -> u64
        ensures exact { result ≡ back_by self.now q }
        ensures stands { (pushes : List Push) (acknowledged : ℕ)
            → StandsFor self.now pushes acknowledged
            → acknowledged ≤ q
            → q ≤ self.now.octets_out
            → result ≡ back_of pushes q }
    {
        match self.changed.get(self.whole_below(q)) {
            Some(unit) => place_before(unit.start, unit.at, q),
            None => place_before(self.octets_in, self.octets_out, q),
        }
    }

    /// Notes that the image's places below `q`, which is at most the image's end, are acknowledged.
    pub fn acknowledge(&mut self, q: u64)
        requires { q ≤ self.old.octets_out }
        ensures stands { (pushes : List Push) (acknowledged : ℕ)
            → StandsFor self.old pushes acknowledged
            → StandsFor self.new pushes (max acknowledged q) }
        ensures exact { IsButForSpare (pruned self.old q) self.new }
        ensures spare { self.old.spare ≤ self.new.spare }
    {
        let count = self.whole_below(q);
        forget_front(&mut self.changed, count);
    }

    /// Appends the image from place `lo` to below `hi`, where the sender's octets from place `start` on are `octets`. These
    /// have all octets of that part of the image that stand as they are, and none of it lies before the first octet of which
    /// not the whole image is acknowledged. The target has room for it, so no memory is taken.
    pub fn copy(&self, lo: u64, hi: u64, start: u64, octets: &[u8], target: &mut Vec<u8>)
        requires order { lo ≤ hi }
        requires within { hi ≤ self.now.octets_out }
        requires room { length target.old.items + (hi - lo)
            ≤ vec_capacity target.old }
        ensures image { (pushes : List Push) (acknowledged : ℕ)
            → StandsFor self.now pushes acknowledged
            → fore_of pushes (back_of pushes acknowledged) ≤ lo
            → NeedsOnly pushes lo hi start (start + length octets.now)
            → target.new.items
            ≡ target.old.items ++ copied pushes lo hi start octets.now }
        ensures room { vec_capacity target.old ≤ vec_capacity target.new }
    {
        let mut at = lo;
        let mut next = self.whole_below(lo);
        while at < hi
            && let Some(unit) = self.changed.get(next)
        {
            let stop = unit.at.max(at).min(hi);
            let index = place_before(unit.start, unit.at, at).saturating_sub(start);
            append_part(octets, index, stop - at, target);
            let end = (unit.at + unit.image.len() as u64).max(stop).min(hi);
            let index = stop.saturating_sub(unit.at);
            append_part(&unit.image, index, end - stop, target);
            at = end;
            next += 1;
        }
        let index = place_before(self.octets_in, self.octets_out, at).saturating_sub(start);
        append_part(octets, index, hi - at, target);
    }

    /// How many of the kept units have no octet from `p` on.
    fn ended_at(&self, p: u64) -> usize
        ensures { drop result self.now.changed
            ≡ filter (λ u. nat_lt p (u.start + u.unit)) self.now.changed }
    {
        self.changed
            .partition_point(|unit| unit.start + unit.unit <= p)
    }

    /// How many of the kept units have no octet from the one before `e` on.
    fn ended_before(&self, e: u64) -> usize
        ensures { drop result self.now.changed
            ≡ filter (λ u. nat_le e (u.start + u.unit)) self.now.changed }
    {
        self.changed
            .partition_point(|unit| unit.start + unit.unit < e)
    }

    /// How many of the kept units have their whole image below place `q`.
    fn whole_below(&self, q: u64) -> usize
        ensures { drop result self.now.changed ≡ filter (is_open q) self.now.changed }
    {
        self.changed
            .partition_point(|unit| unit.at + unit.image.len() as u64 <= q)
    }
}

/// Forgets so many units at the front.
fn forget_front(units: &mut VecDeque<ChangedUnit>, count: usize)
    ensures items { units.new.items ≡ drop count units.old.items }
    ensures room { deque_capacity units.new ≡ deque_capacity units.old }
    ensures fewer { deque_len units.new ≤ deque_len units.old }
{
    for _ in 0..count {
        let _forgotten = units.pop_front();
    }
}

/// The place that lies as far before a mark as this one lies before the mark's place in the other numbering.
fn place_before(mark: u64, other: u64, place: u64) -> u64
    ensures { result ≡ mark - (other - place) }
{
    mark.saturating_sub(other.saturating_sub(place))
}

/// Appends so many octets from an index on, where there are so many.
fn append_part(octets: &[u8], index: u64, count: u64, target: &mut Vec<u8>)
    requires { length target.old.items + count ≤ vec_capacity target.old }
    ensures part { count ≡ 0 ⊎ index + count ≤ length octets.now
        → target.new.items ≡ target.old.items ++ take count (drop index octets.now) }
    ensures few { length target.new.items ≤ length target.old.items + count }
    ensures room { vec_capacity target.old ≤ vec_capacity target.new }
{
    if count == 0 {
        return;
    }
    if let Some(rest) = (octets.len() as u64).checked_sub(index)
        && count <= rest
    {
        let _fits = target.extend_from_slice(
            &octets[index as usize..index as usize + count as usize],
        );
    }
}
