// Which places of a list are in each bucket.
ghost use Rattle.std.specs.Prelude.{◌≡◌, ◌+◌, ◌^◌, ◌<◌, ◌++◌, ◌∷◌, [], length, slice_index, IfOk};
ghost use Rattle.expiring_table.specs.Inside.Buckets.{bucket_in};
ghost use Rattle.expiring_table.specs.Inside.Chained.{IsLast, IsNext, without_place, emptied, with_place, no_places};

use crate::buckets::bucket_in;
use crate::place_or_none::PlaceOrNone;
use crate::seed::Seed;
use std::alloc::{AllocError, Global};
use std::marker::Model;

/// The bucket of each place of a list; and of each bucket its places, from the last to the first. No call after `new` takes
/// memory.
#[derive(Drop)]
pub struct Chains {
    seed: Seed,
    // the last place in each bucket
    heads: Vec<PlaceOrNone>,
    // the bucket of each place
    buckets: Vec<u32>,
    // the last earlier place in the same bucket
    previous: Vec<PlaceOrNone>,
}

impl Model for Chains {
    ghost use Rattle.expiring_table.specs.Inside.Chained.{Chained};

    ghost Value = { Chained };

    ghost use Rattle.expiring_table.specs.Inside.Whole.{chained_of, AreLinked};

    ghost view = { chained_of };

    ghost invariant = { AreLinked };
}

impl Chains {
    /// No places, and room for so many in so many buckets; the error is that there is too little memory.
    pub fn new(alloc: Global, seed: Seed, width: usize, room: usize) -> Result<Chains, AllocError>
        requires { room < 2 ^ 32 }
        ensures { IfOk result (λ chains. chains ≡ no_places seed width room) }
    {
        Ok(Chains {
            seed,
            heads: vec![in alloc; PlaceOrNone::none(); width]?,
            buckets: Vec::with_capacity(alloc, room)?,
            previous: Vec::with_capacity(alloc, room)?,
        })
    }

    /// What keys are spread by.
    pub fn seed(&self) -> Seed
        ensures { result ≡ self.now.seed }
    {
        self.seed
    }

    /// The bucket of a key.
    pub fn bucket_of(&self, key: u128) -> u32
        requires some { 0 < self.now.width }
        requires few { self.now.width < 2 ^ 32 }
        ensures value { result ≡ bucket_in self.now.seed self.now.width key }
        ensures within { result < self.now.width }
    {
        bucket_in(&self.seed, self.heads.len(), key)
    }

    /// The last place in a bucket.
    pub fn last(&self, bucket: usize) -> Option<usize>
        requires { bucket < self.now.width }
        ensures { IsLast bucket self.now.buckets (length self.now.buckets) result }
    {
        self.heads[bucket].place()
    }

    /// The last place before another in the same bucket.
    pub fn before(&self, place: usize) -> Option<usize>
        requires place { place < length self.now.buckets }
        requires there { slice_index self.now.buckets place < self.now.width }
        ensures { IsLast (slice_index self.now.buckets place) self.now.buckets place
            result }
    {
        self.previous[place].place()
    }

    /// The next place is in this bucket.
    pub fn push(&mut self, bucket: u32)
        requires bucket { bucket < self.old.width }
        requires room { length self.old.buckets < self.old.room }
        ensures { self.new ≡ with_place bucket self.old }
    {
        let place = self.buckets.len();
        let head = bucket as usize;
        self.previous.push_reserved(self.heads[head]);
        self.heads[head] = PlaceOrNone::to(place);
        self.buckets.push_reserved(bucket);
    }

    /// A place is in no bucket any more.
    pub fn remove(&mut self, place: usize)
        requires place { place < length self.old.buckets }
        requires there { slice_index self.old.buckets place < self.old.width }
        requires few { self.old.width < 2 ^ 32 }
        ensures { self.new ≡ without_place place self.old }
    {
        let next = self.next_of(place);
        let before = self.previous[place];
        let bucket = self.buckets[place] as usize;
        self.buckets[place] = self.heads.len() as u32;
        match next {
            Some(next) => self.previous[next] = before,
            None => self.heads[bucket] = before,
        }
    }

    // The first place behind another in the same bucket.
    fn next_of(&self, place: usize) -> Option<usize>
        requires place { place < length self.now.buckets }
        requires there { slice_index self.now.buckets place < self.now.width }
        ensures { IsNext (slice_index self.now.buckets place) self.now.buckets place
            result }
    {
        let mut next = None;
        let mut at = self.last(self.buckets[place] as usize);
        while let Some(one) = at {
            if one == place {
                return next;
            }
            next = Some(one);
            at = self.before(one);
        }
        None
    }

    /// Forgets all places, and spreads keys by another seed from now on.
    pub fn clear(&mut self, seed: Seed)
        ensures { self.new ≡ emptied seed self.old }
    {
        self.seed = seed;
        self.buckets.clear();
        self.previous.clear();
        self.heads.fill(PlaceOrNone::none());
    }
}
