// Rows under keys.
ghost use Rattle.std.specs.Prelude.{◌≡◌, ◌*◌, ◌<◌, ◌≤◌, ◌^◌, ◌++◌, ◌∷◌, [], length, None, IsSome, IfOk, IfSome, IfNone, option_copied, option_map};
ghost use Rattle.expiring_table.specs.Rows.{no_rows, row_of, with_row, without, living, AreDistinct, IsTakenOut};

use crate::row::Row;
use crate::seed::Seed;
use crate::store::Store;
use std::alloc::{AllocError, Global};
use std::marker::Model;

/// Rows with distinct keys, in the order in which they were put in. A look-up costs a constant on the mean, and what ended is
/// found without a look at the rest. No call after `new` takes memory.
#[derive(Drop)]
pub struct Rows<T> {
    store: Store<T>,
}

impl<T> Model for Rows<T> {
    ghost use Rattle.expiring_table.specs.Rows.{Table};

    ghost Value = { Table T };

    ghost use Rattle.expiring_table.specs.Inside.Kept.{table_of, IsWhole};

    ghost view = { λ table. table_of table.store };

    ghost invariant = { λ table. IsWhole table.store };
}

impl<T: Copy> Rows<T> {
    /// No rows, and room for so many, from 1 to 2^31 - 1; the error is that there is too little memory.
    pub fn new(alloc: Global, most: usize, seed: Seed) -> Result<Rows<T>, AllocError>
        requires some { 0 < most }
        requires few { 2 * most < 2 ^ 32 }
        ensures { IfOk result (λ table. table ≡ no_rows most) }
    {
        Ok(Rows {
            store: Store::new(alloc, most, seed)?,
        })
    }

    /// The row with a key.
    pub fn find(&self, key: u128) -> Option<&Row<T>>
        ensures { option_copied result ≡ row_of key self.now.rows }
    {
        let place = self.store.place_of(key)?;
        self.store.cells[place].as_ref()
    }

    /// The row with a key, and the place at which it is kept, by which `set_at` finds it at once.
    #[inline(always)]
    pub fn locate(&self, key: u128) -> Option<(usize, &Row<T>)>
        ensures { option_map (λ found. found.1.now) result
            ≡ row_of key self.now.rows }
    {
        let place = self.store.place_of(key)?;
        let row = self.store.cells[place].as_ref()?;
        Some((place, row))
    }

    /// The row at a place, if it has this key: any place will do.
    #[inline(always)]
    pub fn row_at(&self, place: usize, key: u128) -> Option<&Row<T>>
        ensures { IfSome result (λ row. row_of key self.now.rows ≡ Some row.now) }
    {
        if self.store.cells.len() <= place {
            return None;
        }
        let row = self.store.cells[place].as_ref()?;
        if row.key == key { Some(row) } else { None }
    }

    /// The number of rows. No two of them have one key.
    pub fn len(&self) -> usize
        ensures value { result ≡ length self.now.rows }
        ensures few { result ≤ self.now.most }
        ensures distinct { AreDistinct self.now.rows }
    {
        self.store.count
    }

    /// Puts a row with a new key behind the others, of which there are fewer than the most.
    pub fn push(&mut self, row: Row<T>)
        requires room { length self.old.rows < self.old.most }
        requires new { row_of row.key self.old.rows ≡ None }
        ensures { self.new ≡ record self.old { rows = self.old.rows ++ row ∷ [] } }
    {
        self.store.make_room();
        self.store.append(row);
    }

    /// Puts a row in the place of the one with its key, which is there. It is looked for at a place first, that at which it was
    /// located; any will do.
    #[inline(always)]
    pub fn set_at(&mut self, place: usize, row: Row<T>)
        requires { IsSome (row_of row.key self.old.rows) }
        ensures { self.new ≡ record self.old { rows = with_row row self.old.rows } }
    {
        if !self.store.replace_watched(place, row) {
            self.set_anew(place, row);
        }
    }

    // The same, where room for an alarm may be wanting, or the row be elsewhere.
    #[inline(never)]
    fn set_anew(&mut self, place: usize, row: Row<T>)
        requires { IsSome (row_of row.key self.old.rows) }
        ensures { self.new ≡ record self.old { rows = with_row row self.old.rows } }
    {
        self.store.make_room();
        if let Some(place) = self.store.place_near(place, row.key) {
            self.store.replace(place, row);
        }
    }

    /// Drops the row with a key, if there is one.
    pub fn remove(&mut self, key: u128)
        ensures { self.new ≡ record self.old { rows = without key self.old.rows } }
    {
        if let Some(place) = self.store.place_of(key) {
            self.store.clear_at(place, key);
        }
    }

    /// Takes out a row whose end has come at a moment, if there is one; which of them is left open.
    #[inline(always)]
    pub fn next_ended(&mut self, now: u64) -> Option<Row<T>>
        ensures some { IfSome result (IsTakenOut now self.old self.new) }
        ensures none { IfNone result (self.new ≡ self.old) }
        ensures live { IfNone result (living now self.new.rows ≡ self.new.rows) }
        ensures distinct { AreDistinct self.old.rows }
    {
        self.store.next_ended(now)
    }

    /// Spreads the keys by another seed, at the cost of a look at all rows. What the rows are stays as it is.
    pub fn reseed(&mut self, seed: Seed)
        ensures { self.new ≡ self.old }
    {
        self.store.compact(seed);
    }
}
