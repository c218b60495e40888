// The bindings of a table: fixed ones, and others.
ghost use Rattle.std.specs.Prelude.{◌≡◌, ◌*◌, ◌<◌, ◌^◌, ◌++◌, ◌∷◌, [], true, None, Some, length, map, option_map, option_and_then, All, IfOk, IfSome, IfNone, IsSome, IsSomeAnd, OnErr, OnOk};
ghost use Rattle.expiring_table.specs.Prelude.{no_rows, row_of, with_row, living, IsTakenOut};
ghost use Rattle.binding_table.specs.Inside.Steps.{ending, filed};

use crate::binding::{Binding, number_of};
use expiring_table::{Row, Rows, Seed};
use gate_base::OutOfMemory;
use indexmap::IndexMap;
use std::alloc::Global;
use std::marker::Model;

/// The bindings of a table under the numbers of their hosts: the fixed ones in their order, which are put in first and stay as they
/// are, and the others behind them.
#[derive(Drop)]
pub struct Entries {
    fixed: IndexMap<u128, Binding>,
    moving: Rows<Binding>,
}

impl Model for Entries {
    ghost use Rattle.expiring_table.specs.Prelude.{Table};
    ghost use Rattle.binding_table.specs.declared.binding.Binding.{Binding};

    ghost Value = { Table Binding };

    ghost use Rattle.binding_table.specs.Inside.Entries.{fixed_rows, rows_inside, AreApart};

    ghost view = { rows_inside };

    ghost invariant = { λ entries. AreApart (fixed_rows entries) entries.moving };
}

impl Entries {
    /// No bindings, and room for so many fixed ones and so many others; the error is that there is too little memory.
    pub fn new(alloc: Global, fixed: usize, most: usize, seed: Seed) -> Result<Entries, OutOfMemory>
        requires some { 0 < most }
        requires few { 2 * most < 2 ^ 32 }
        ensures { IfOk result (λ entries. entries ≡ no_rows most) }
    {
        Ok(Entries {
            fixed: IndexMap::with_capacity(alloc, fixed)?,
            moving: Rows::new(alloc, most, seed)?,
        })
    }

    /// The binding with a number.
    #[inline(always)]
    pub fn find(&self, number: u128) -> Option<&Binding>
        ensures { option_map (λ found. found.now) result
            ≡ option_map (λ row. row.value) (row_of number self.now.rows) }
    {
        match self.moving.find(number) {
            Some(row) => Some(&row.value),
            None => self.fixed.get(&number),
        }
    }

    /// The row with a number unless it is that of a fixed binding, and the place at which it is kept, by which `set_at` finds it at once.
    #[inline(always)]
    pub fn locate(&self, number: u128) -> Option<(usize, Row<Binding>)>
        ensures { option_map (λ found. found.1) result
            ≡ option_and_then ending (row_of number self.now.rows) }
    {
        match self.moving.locate(number) {
            Some((place, row)) => Some((place, *row)),
            None => None,
        }
    }

    /// The same, if it is kept at a place: any will do.
    #[inline(always)]
    pub fn row_at(&self, place: usize, number: u128) -> Option<Row<Binding>>
        ensures { IfSome result
            (λ row. option_and_then ending (row_of number self.now.rows) ≡ Some row) }
    {
        self.moving.row_at(place, number).copied()
    }

    /// The number of bindings.
    pub fn len(&self) -> usize
        ensures { result ≡ length self.now.rows }
    {
        self.fixed.len() + self.moving.len()
    }

    /// Puts a fixed binding of a new host behind the others, which all are fixed. The error is that there is too little memory; nothing
    /// has changed then.
    pub fn fix(&mut self, binding: Binding) -> Result<(), OutOfMemory>
        requires early { All (λ row. row.end ≡ None) self.old.rows }
        requires new { row_of (filed binding).key self.old.rows ≡ None }
        requires fixed { binding.fixed ≡ true }
        ensures ok { OnOk result (self.new
            ≡ record self.old { rows = self.old.rows ++ filed binding ∷ [] }) }
        ensures err { OnErr result (self.new ≡ self.old) }
    {
        self.fixed
            .insert(number_of(binding.side, binding.host), binding)?;
        Ok(())
    }

    /// Puts the row of a binding of a new host, which isn't fixed, behind the others.
    pub fn push(&mut self, row: Row<Binding>)
        requires room { length self.old.rows < self.old.most }
        requires new { row_of row.key self.old.rows ≡ None }
        requires end { IsSome row.end }
        ensures { self.new ≡ record self.old { rows = self.old.rows ++ row ∷ [] } }
    {
        self.moving.push(row);
    }

    /// Puts a row in the place of the one with its number, which is there; neither is that of a fixed binding. It is looked for at a
    /// place first, that at which it was located.
    pub fn set_at(&mut self, place: usize, row: Row<Binding>)
        requires there { IsSomeAnd (row_of row.key self.old.rows)
            (λ found. IsSome found.end) }
        requires end { IsSome row.end }
        ensures { self.new ≡ record self.old { rows = with_row row self.old.rows } }
    {
        self.moving.set_at(place, row);
    }

    /// Takes out the row of a binding whose end has come at a moment, if there is one; which of them is left open.
    #[inline(always)]
    pub fn next_ended(&mut self, now: u64) -> Option<Row<Binding>>
        ensures some { IfSome result (IsTakenOut now self.old self.new) }
        ensures none { IfNone result (self.new ≡ self.old) }
        ensures live { IfNone result (living now self.new.rows ≡ self.new.rows) }
    {
        self.moving.next_ended(now)
    }

    /// Spreads the numbers of the bindings that aren't fixed by another seed, at the cost of a look at all of them.
    pub fn reseed(&mut self, seed: Seed)
        ensures { self.new ≡ self.old }
    {
        self.moving.reseed(seed);
    }
}
