// Where rows stand, and how they are found.
ghost use Rattle.std.specs.Prelude.{◌≡◌, ◌+◌, ◌*◌, ◌<◌, ◌≤◌, ◌^◌, ◌++◌, ◌∷◌, [], true, false, None, Some, length, IfOk, IfSome, IfNone};
ghost use Rattle.expiring_table.specs.Inside.Chained.{with_place};
ghost use Rattle.expiring_table.specs.Rows.{no_rows, with_row, without, living, IsTakenOut};
ghost use Rattle.expiring_table.specs.Inside.Kept.{bucket_of, first_moment, rows_in, table_of, row_at, count_due, is_watched, IsPlaceOf, HasAlarm, IsWhole, IsOpen, IsListed, HasRoom, CanAppend};

use crate::alarms::Alarms;
use crate::chains::Chains;
use crate::row::{Row, is_cell_of};
use crate::seed::Seed;
use std::alloc::{AllocError, Global};

/// Cells, each with a row or none.
#[derive(Drop)]
pub(crate) struct Store<T> {
    // how many rows there may be
    pub(crate) most: usize,
    pub(crate) cells: Vec<Option<Row<T>>>,
    // the moment of the alarm of each row that ends
    pub(crate) moments: Vec<u64>,
    pub(crate) chains: Chains,
    pub(crate) alarms: Alarms,
    // how many rows there are
    pub(crate) count: usize,
}

impl<T: Copy> Store<T> {
    pub(crate) fn new(alloc: Global, most: usize, seed: Seed) -> Result<Store<T>, AllocError>
        requires some { 0 < most }
        requires few { 2 * most < 2 ^ 32 }
        ensures whole { IfOk result IsWhole }
        ensures table { IfOk result (λ store. table_of store ≡ no_rows most) }
    {
        Ok(Store {
            most,
            cells: Vec::with_capacity(alloc, 2 * most)?,
            moments: Vec::with_capacity(alloc, 2 * most)?,
            chains: Chains::new(alloc, seed, 2 * most, 2 * most)?,
            alarms: Alarms::new(alloc, 2 * most)?,
            count: 0,
        })
    }

    /// The place of the row with a key.
    #[inline(always)]
    pub(crate) fn place_of(&self, key: u128) -> Option<usize>
        requires { IsWhole self.now }
        ensures { IsPlaceOf key self.now.cells.items result }
    {
        let mut at = self.chains.last(self.chains.bucket_of(key) as usize);
        while let Some(place) = at {
            if is_cell_of(self.cells[place], key) {
                return Some(place);
            }
            at = self.chains.before(place);
        }
        None
    }

    /// The same, where a place is looked at first.
    pub(crate) fn place_near(&self, near: usize, key: u128) -> Option<usize>
        requires { IsWhole self.now }
        ensures { IsPlaceOf key self.now.cells.items result }
    {
        if near < self.cells.len() && is_cell_of(self.cells[near], key) {
            return Some(near);
        }
        self.place_of(key)
    }

    /// Makes room for a row and an alarm more, at the cost of a look at all rows where there is none.
    pub(crate) fn make_room(&mut self)
        requires { IsWhole self.old }
        ensures whole { IsWhole self.new }
        ensures table { table_of self.new ≡ table_of self.old }
        ensures room { CanAppend self.new }
    {
        if 2 * self.most <= self.cells.len() || 2 * self.most <= self.alarms.len() {
            let seed = self.chains.seed();
            self.compact(seed);
        }
    }

    /// Drops the empty cells, and lists each row anew, with its key spread by this seed.
    pub(crate) fn compact(&mut self, seed: Seed)
        requires { IsWhole self.old }
        ensures whole { IsWhole self.new }
        ensures table { table_of self.new ≡ table_of self.old }
        ensures room { CanAppend self.new }
    {
        self.cells.retain(|cell| cell.is_some());
        self.moments.clear();
        self.chains.clear(seed);
        self.alarms.clear();
        for place in 0..self.cells.len() {
            self.list_cell(place);
        }
    }

    // Lists the next cell, which is not empty.
    fn list_cell(&mut self, place: usize)
        requires whole { IsListed place self.old }
        requires within { place < length self.old.cells.items }
        ensures whole { IsListed (place + 1) self.new }
        ensures most { self.new.most ≡ self.old.most }
        ensures cells { self.new.cells ≡ self.old.cells }
    {
        if let Some(row) = self.cells[place] {
            self.list_row(row.key, row.end);
        }
    }

    // A row behind the others can be found by its key, and by its end.
    fn list_row(&mut self, key: u128, end: Option<u64>)
        requires room { HasRoom self.old }
        requires moments { length self.old.moments.items < 2 * self.old.most }
        requires links { length self.old.chains.buckets < 2 * self.old.most }
        requires alarms { length self.old.alarms.alarms < 2 * self.old.most }
        ensures room { HasRoom self.new }
        ensures most { self.new.most ≡ self.old.most }
        ensures cells { self.new.cells ≡ self.old.cells }
        ensures count { self.new.count ≡ self.old.count }
        ensures moments { self.new.moments.items
            ≡ self.old.moments.items ++ first_moment end ∷ [] }
        ensures chains { self.new.chains
            ≡ with_place (bucket_of self.old.chains key) self.old.chains }
        ensures alarms { HasAlarm end (length self.old.moments.items)
            self.old.alarms.alarms self.new.alarms.alarms }
    {
        let place = self.moments.len();
        self.moments.push_reserved(first_moment(end));
        self.chains.push(self.chains.bucket_of(key));
        if let Some(end) = end {
            self.alarms.push(end, place as u32);
        }
    }

    /// Puts a row with a new key behind the others.
    pub(crate) fn append(&mut self, row: Row<T>)
        requires whole { IsWhole self.old }
        requires room { CanAppend self.old }
        requires few { self.old.count < self.old.most }
        requires new { IsPlaceOf row.key self.old.cells.items None }
        ensures whole { IsWhole self.new }
        ensures table { table_of self.new
            ≡ record (table_of self.old) { rows = rows_in self.old.cells.items ++ row ∷ [] } }
    {
        self.list_row(row.key, row.end);
        self.cells.push_reserved(Some(row));
        self.count += 1;
    }

    /// Another row with the same key stands at a place.
    pub(crate) fn replace(&mut self, place: usize, row: Row<T>)
        requires whole { IsWhole self.old }
        requires room { CanAppend self.old }
        requires place { IsPlaceOf row.key self.old.cells.items (Some place) }
        ensures whole { IsWhole self.new }
        ensures table { table_of self.new
            ≡ record (table_of self.old) { rows = with_row row (rows_in self.old.cells.items) } }
    {
        let was = self.cells[place];
        self.cells[place] = Some(row);
        let Some(end) = row.end else {
            return;
        };
        if is_watched(was, self.moments[place], end) {
            return;
        }
        self.moments[place] = end;
        self.alarms.push(end, place as u32);
    }

    /// The same at once, where the row at a place has this key, and an alarm no later than the end; else nothing changes.
    #[inline(always)]
    pub(crate) fn replace_watched(&mut self, near: usize, row: Row<T>) -> bool
        requires { IsWhole self.old }
        ensures whole { IsWhole self.new }
        ensures done { result ≡ true
            → table_of self.new
            ≡ record (table_of self.old) { rows = with_row row (rows_in self.old.cells.items) } }
        ensures kept { result ≡ false → table_of self.new ≡ table_of self.old }
    {
        let Some(end) = row.end else {
            return false;
        };
        if self.cells.len() <= near {
            return false;
        }
        let was = self.cells[near];
        if !is_cell_of(was, row.key) {
            return false;
        }
        if !is_watched(was, self.moments[near], end) {
            return false;
        }
        self.cells[near] = Some(row);
        true
    }

    /// The row at a place goes.
    pub(crate) fn clear_at(&mut self, place: usize, key: u128)
        requires whole { IsWhole self.old }
        requires place { IsPlaceOf key self.old.cells.items (Some place) }
        ensures whole { IsWhole self.new }
        ensures table { table_of self.new
            ≡ record (table_of self.old) { rows = without key (rows_in self.old.cells.items) } }
    {
        self.chains.remove(place);
        self.cells[place] = None;
        self.count -= 1;
    }

    /// Takes out a row that doesn't live, if there is one.
    #[inline(always)]
    pub(crate) fn next_ended(&mut self, now: u64) -> Option<Row<T>>
        requires { IsWhole self.old }
        ensures whole { IsWhole self.new }
        ensures some { IfSome result
            (IsTakenOut now (table_of self.old) (table_of self.new)) }
        ensures none { IfNone result (table_of self.new ≡ table_of self.old) }
        ensures live { IfNone result (living now (rows_in self.new.cells.items)
            ≡ rows_in self.new.cells.items) }
    {
        while let Some((moment, place)) = self.alarms.pop_due(now) {
            if let Some(row) = self.review(moment, place as usize, now) {
                return Some(row);
            }
        }
        None
    }

    // Looks at the place of an alarm that was taken out: takes out its row if that doesn't live, and else sets an alarm at its end.
    fn review(&mut self, moment: u64, place: usize, now: u64) -> Option<Row<T>>
        requires open { IsOpen moment place self.old }
        requires due { moment ≤ now }
        ensures whole { IsWhole self.new }
        ensures some { IfSome result
            (IsTakenOut now (table_of self.old) (table_of self.new)) }
        ensures none { IfNone result (table_of self.new ≡ table_of self.old) }
        ensures due { IfNone result (count_due now self.new.alarms.alarms
            ≡ count_due now self.old.alarms.alarms) }
    {
        let row = self.row_at(place)?;
        let end = row.end?;
        if end <= now {
            self.chains.remove(place);
            self.cells[place] = None;
            self.count -= 1;
            return Some(row);
        }
        if self.moments[place] != moment {
            return None;
        }
        self.moments[place] = end;
        self.alarms.push(end, place as u32);
        None
    }

    fn row_at(&self, place: usize) -> Option<Row<T>>
        ensures { result ≡ row_at self.now.cells.items place }
    {
        self.cells.get(place).copied().unwrap_or(None)
    }
}

// Whether a row had an end, and its alarm is no later than another end.
fn is_watched<T: Copy>(cell: Option<Row<T>>, alarm: u64, end: u64) -> bool
    ensures { result ≡ is_watched alarm end cell }
{
    matches!(cell, Some(row) if row.end.is_some() && alarm <= end)
}

// The moment of the first alarm of a row with this end.
fn first_moment(end: Option<u64>) -> u64
    ensures { result ≡ first_moment end }
{
    end.unwrap_or(0)
}
