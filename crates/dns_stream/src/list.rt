// The list of addresses by which one direction of a session is renamed.
ghost use Rattle.std.specs.Prelude.{◌≡◌, ◌≤◌, ◌<◌, ◌+◌, false, List, [], ◌∷◌, ◌++◌, length, take, slice_get, Some, vec_len, vec_capacity, IfOk, IfErr};
ghost use Rattle.dialogue.specs.Prelude.{Entry, is_listed, listed_image};
ghost use Rattle.dns_stream.specs.Inside.Order.{Rises, IsAt, IsGapFor, AreOneList};

use dialogue::MOST_ENTRIES;
use gate_base::{Addr, OutOfMemory};
use std::alloc::Global;
use std::marker::Model;

/// An address with its image, or one that is kept.
pub type Entry = (Addr, Option<Addr>);

/// A list of at most `MOST_ENTRIES`, in which an address is found by halving. Contracts see the entries in the order in which they
/// were learned.
#[derive(Drop)]
pub struct RenameList {
    entries: Vec<Entry>,
    // The same in the order of their addresses.
    sorted: Vec<Entry>,
}

impl Model for RenameList {
    ghost use Rattle.std.specs.Prelude.{◌≤◌, List, vec_capacity};
    ghost use Rattle.dialogue.specs.Prelude.{Entry};
    ghost use Rattle.dialogue.specs.declared.TheConstants.{MOST_ENTRIES};
    ghost use Rattle.dns_stream.specs.Inside.Order.{AreOneList};

    ghost Value = { List Entry };

    ghost view = { λ list. list.entries.items };

    ghost invariant = { λ list. (MOST_ENTRIES ≤ vec_capacity list.entries)
        × (MOST_ENTRIES ≤ vec_capacity list.sorted)
        × AreOneList list.entries.items list.sorted.items };
}

impl RenameList {
    /// No entry, and room for `MOST_ENTRIES`; the error is that there is too little memory. Nothing that is learned takes memory.
    pub fn new(alloc: Global) -> Result<RenameList, OutOfMemory>
        ensures { IfOk result (λ list. list ≡ []) }
    {
        Ok(RenameList {
            entries: Vec::with_capacity(alloc, MOST_ENTRIES)?,
            sorted: Vec::with_capacity(alloc, MOST_ENTRIES)?,
        })
    }

    /// The number of entries.
    pub fn len(&self) -> usize
        ensures len { result ≡ length self.now }
        ensures few { result ≤ MOST_ENTRIES }
    {
        self.entries.len()
    }

    /// The entry at a place, counted from 0, which must lie below `len`.
    pub fn entry(&self, place: usize) -> Entry
        requires { place < length self.now }
        ensures { slice_get self.now place ≡ Some result }
    {
        self.entries[place]
    }

    /// What the list has of this address: `Some(image)` for an entry with an image, `Some(None)` for an address that is kept, and None
    /// without an entry.
    pub fn image_of(&self, address: Addr) -> Option<Option<Addr>>
        ensures { result ≡ listed_image self.now address.0 }
    {
        match place_of(&self.sorted, address) {
            Ok(place) => Some(self.sorted[place].1),
            Err(_) => None,
        }
    }

    /// Appends an entry. The address must not be listed, and there must be fewer than `MOST_ENTRIES`.
    pub fn learn(&mut self, address: Addr, image: Option<Addr>)
        requires unknown { is_listed self.old address.0 ≡ false }
        requires few { length self.old < MOST_ENTRIES }
        ensures { self.new ≡ self.old ++ (address, image) ∷ [] }
    {
        self.entries.push_reserved((address, image));
        put(&mut self.sorted, (address, image));
    }

    /// Keeps the first `len` entries, and drops the others. The list must have that many. It sorts the entries that stay anew.
    pub fn forget_from(&mut self, len: usize)
        requires { len ≤ length self.old }
        ensures { self.new ≡ take len self.old }
    {
        self.entries.truncate(len);
        sort(&mut self.sorted, &self.entries);
    }
}

/// Where an address stands in a sorted list, or where it belongs.
fn place_of(sorted: &[Entry], address: Addr) -> Result<usize, usize>
    requires { Rises sorted.now }
    ensures found { IfOk result (IsAt sorted.now address.0) }
    ensures absent { IfErr result (IsGapFor sorted.now address.0) }
{
    sorted.binary_search_by_key(&address.0, |entry| entry.0.0)
}

/// Puts an entry in its place, unless its address has one.
fn put(sorted: &mut Vec<Entry>, entry: Entry)
    requires rises { Rises sorted.old.items }
    requires room { vec_len sorted.old < vec_capacity sorted.old }
    ensures one { (entries : List Entry)
        → length entries < MOST_ENTRIES
        → AreOneList entries sorted.old.items
        → AreOneList (entries ++ entry ∷ []) sorted.new.items }
    ensures room { vec_capacity sorted.old ≤ vec_capacity sorted.new }
{
    match place_of(sorted, entry.0) {
        Ok(_known) => {}
        Err(place) => {
            let _fits = sorted.insert(place, entry);
        }
    }
}

/// Makes a list of these entries in the order of their addresses.
fn sort(sorted: &mut Vec<Entry>, entries: &[Entry])
    requires few { length entries.now ≤ MOST_ENTRIES }
    requires room { MOST_ENTRIES ≤ vec_capacity sorted.old }
    ensures one { AreOneList entries.now sorted.new.items }
    ensures room { MOST_ENTRIES ≤ vec_capacity sorted.new }
{
    sorted.clear();
    for entry in entries {
        put(sorted, *entry);
    }
}
