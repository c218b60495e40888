// Places, of which the first from any place on is found at a constant cost.
ghost use Rattle.std.specs.Prelude.{ℕ, ◌≡◌, ◌*◌, ◌<◌, ◌≤◌, nat_lt, length, IfOk};
ghost use Rattle.realm_pools.specs.Inside.Places.{bit_of, one_if, IsFirst, IsSet};
ghost use Rattle.gate_base.specs.declared.address.TheConstants.{LARGEST_POOL};

use crate::words::{first_bit, set_bit};
use gate_base::OutOfMemory;
use std::alloc::Global;
use std::marker::Model;

/// Some of `LARGEST_POOL` places, each as a bit that is 1.
#[derive(Drop)]
pub(crate) struct Places {
    // the bits of the places
    places: Vec<u64>,
    // of each of those words, whether it is not 0
    words: Vec<u64>,
    // and of each of these, the same
    blocks: Vec<u64>,
}

impl Model for Places {
    ghost use Rattle.std.specs.Prelude.{ℕ, List};

    ghost Value = { List ℕ };

    ghost use Rattle.realm_pools.specs.Inside.Places.{AreLevels};

    ghost view = { λ levels. levels.places.items };

    ghost invariant = { λ levels. AreLevels levels.places.items levels.words.items levels.blocks.items };
}

impl Places {
    /// The places below a size, all of which are there.
    pub fn new(alloc: Global, size: usize) -> Result<Places, OutOfMemory>
        requires { size ≤ LARGEST_POOL }
        ensures long { IfOk result (λ places. size < 64 * length places) }
        ensures all { IfOk result (λ places. (place : ℕ)
            → bit_of places place ≡ one_if (nat_lt place size)) }
    {
        let mut places = Places::none(alloc, size)?;
        for place in 0..size {
            places.set(place, true);
        }
        Ok(places)
    }

    fn none(alloc: Global, size: usize) -> Result<Places, OutOfMemory>
        requires { size ≤ LARGEST_POOL }
        ensures long { IfOk result (λ places. size < 64 * length places) }
        ensures none { IfOk result (λ places. (place : ℕ) → bit_of places place ≡ 0) }
    {
        Ok(Places {
            places: vec![in alloc; 0; size / 64 + 1]?,
            words: vec![in alloc; 0; 64]?,
            blocks: vec![in alloc; 0; 1]?,
        })
    }

    /// The first place from one on.
    pub fn first_from(&self, place: usize) -> Option<usize>
        ensures { IsFirst (bit_of self.now) place result }
    {
        let word = place / 64 + 1;
        let block = first_bit(&self.blocks, word / 64 + 1, None);
        let next = first_bit(&self.words, word, block);
        first_bit(&self.places, place, next)
    }

    /// A place is there, or isn't.
    pub fn set(&mut self, place: usize, there: bool)
        requires { place < 64 * length self.old }
        ensures { IsSet self.old self.new place there }
    {
        let word = place / 64;
        set_bit(&mut self.places, place, there);
        set_bit(&mut self.words, word, self.places[word] != 0);
        set_bit(&mut self.blocks, word / 64, self.words[word / 64] != 0);
    }
}
