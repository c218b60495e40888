ghost use Rattle.std.specs.Prelude.{◌≡◌, ◌+◌, ◌-◌, ◌<◌, ◌≤◌, IsTrue, IfOk, IfSome, IfNone, true, false, not, length, count_by};
ghost use Rattle.realm_pools.specs.Addresses as addresses;
ghost use Rattle.gate_base.specs.declared.address.TheConstants.{LARGEST_POOL};

use crate::places::Places;
use gate_base::{Addr, OutOfMemory};
use std::alloc::Global;
use std::marker::Model;

/// A range of 1 to `LARGEST_POOL` addresses, each of which is free or taken.
#[derive(Drop)]
pub struct Pool {
    first: u32,
    last: u32,
    // whether each address is taken, in order
    taken: Vec<bool>,
    // how many are free
    free: u32,
    // the places of those that are free
    places: Places,
}

impl Model for Pool {
    ghost use Rattle.realm_pools.specs.Addresses.{Addresses};

    ghost Value = { Addresses };

    ghost use Rattle.realm_pools.specs.Inside.Whole.{addresses_of, IsWhole};

    ghost view = { addresses_of };

    ghost invariant = { IsWhole };
}

impl Pool {
    /// The pool of the addresses from the first to the last, 1 to `LARGEST_POOL` of them, all free. The error is that there is too little
    /// memory.
    pub fn new(alloc: Global, first: Addr, last: Addr) -> Result<Pool, OutOfMemory>
        requires ordered { first.0 ≤ last.0 }
        requires small { last.0 - first.0 < LARGEST_POOL }
        ensures { IfOk result (λ pool. pool ≡ addresses.unused first last) }
    {
        let size = last.0 - first.0 + 1;
        Ok(Pool {
            first: first.0,
            last: last.0,
            taken: vec![in alloc; false; size as usize]?,
            free: size,
            places: Places::new(alloc, size as usize)?,
        })
    }

    /// Whether the address is one of the pool's.
    pub fn contains(&self, address: Addr) -> bool
        ensures { result ≡ addresses.is_in address self.now.range }
    {
        self.first <= address.0 && address.0 <= self.last
    }

    /// The number of free addresses.
    pub fn free(&self) -> u32
        ensures { result ≡ count_by not self.now.taken }
    {
        self.free
    }

    /// The least free address, and None exactly where none is free.
    pub fn least_free(&self) -> Option<Addr>
        ensures value { result ≡ addresses.least_free self.now }
        ensures least { IfSome result (addresses.IsLeastFree 0 self.now) }
        ensures none { IfNone result (addresses.IsNoneFree 0 self.now) }
    {
        self.free_from(0)
    }

    /// The least free address above another, and None exactly where none above it is free.
    pub fn next_free(&self, after: Addr) -> Option<Addr>
        ensures value { result ≡ addresses.next_free after self.now }
        ensures least { IfSome result (addresses.IsLeastFree (after.0 + 1) self.now) }
        ensures none { IfNone result (addresses.IsNoneFree (after.0 + 1) self.now) }
    {
        if after.0 < self.first {
            return self.free_from(0);
        }
        let place = (after.0 - self.first) as usize + 1;
        if self.taken.len() < place {
            return None;
        }
        self.free_from(place)
    }

    /// Makes a free address taken.
    pub fn allocate(&mut self, address: Addr)
        requires { IsTrue (addresses.is_free address self.old) }
        ensures { self.new ≡ addresses.with_address address true self.old }
    {
        let place = (address.0 - self.first) as usize;
        self.taken[place] = true;
        self.free -= 1;
        self.places.set(place, false);
    }

    /// Makes a taken address free.
    pub fn give_back(&mut self, address: Addr)
        requires { IsTrue (addresses.is_taken address self.old) }
        ensures { self.new ≡ addresses.with_address address false self.old }
    {
        let place = (address.0 - self.first) as usize;
        self.taken[place] = false;
        self.free += 1;
        self.places.set(place, true);
    }

    // The first free address from a place on.
    fn free_from(&self, place: usize) -> Option<Addr>
        requires { place ≤ length self.now.taken }
        ensures value { result ≡ addresses.free_from place self.now }
        ensures range { self.now.range.first + length self.now.taken
            ≡ self.now.range.last + 1 }
    {
        match self.places.first_from(place) {
            Some(found) => Some(Addr(self.first + found as u32)),
            None => None,
        }
    }
}
