// What was found for the labels of a message, by their places in it.
ghost use Rattle.std.specs.Prelude.{◌≡◌, ◌≤◌, ◌<◌, ℕ, List, Some, length, IfSome};
ghost use Rattle.dns_names.specs.Spelling.{Start, found};
ghost use Rattle.dns_names.specs.Inside.Met.{IsMet, AreMet};

use crate::POINTED;
use crate::label_places::{LabelPlaces, NOWHERE, SHORT};
use std::alloc::Global;

/// A suffix that was met in a message, the lowest place at which it stands written, and the place of the label behind its first one in
/// that message. Without octets, no place is known.
#[derive(Clone, Copy)]
pub struct MetSuffix<'a> {
    pub(crate) octets: &'a [u8],
    pub(crate) place: u16,
    pub(crate) next: u16,
}

fn without_place<'a>(next: u16) -> MetSuffix<'a>
    ensures { (starts : List Start) → IsMet starts result }
{
    MetSuffix {
        octets: &[],
        place: 0,
        next,
    }
}

fn no_suffix<'a>() -> MetSuffix<'a>
    ensures { (starts : List Start) → IsMet starts result }
{
    without_place(NOWHERE)
}

/// The suffixes that were met, by the places of their first labels. All names of a short message, and all copies, have `SHORT` in
/// place of these.
#[derive(Drop)]
pub struct MetSuffixes<'a> {
    pub(crate) short: MetSuffix<'a>,
    pub(crate) long: Vec<MetSuffix<'a>>,
}

impl<'a> MetSuffixes<'a> {
    /// Nothing was met yet.
    pub(crate) fn new(alloc: Global) -> MetSuffixes<'a>
        ensures { (starts : List Start) → AreMet starts result }
    {
        MetSuffixes {
            short: no_suffix(),
            long: Vec::new(alloc),
        }
    }

    fn at(&self, origin: u16) -> Option<MetSuffix<'a>>
        ensures { (starts : List Start) → AreMet starts self.now → IfSome result (IsMet starts) }
    {
        if origin == SHORT {
            return Some(self.short);
        }
        self.long.get(origin as usize).copied()
    }

    /// Where a suffix stands written, if it was kept for the place of its first label.
    pub(crate) fn place_of(&self, origin: u16, octets: &[u8]) -> Option<u16>
        ensures { (starts : List Start)
            → AreMet starts self.now
            → 1 ≤ length octets.now
            → IfSome result (λ place. found starts octets.now ≡ Some place) }
    {
        let suffix = self.at(origin)?;
        if suffix.octets == octets {
            Some(suffix.place)
        } else {
            None
        }
    }

    fn set(&mut self, origin: u16, suffix: MetSuffix<'a>)
        ensures { (starts : List Start)
            → AreMet starts self.old
            → IsMet starts suffix.entry
            → AreMet starts self.new }
    {
        if origin == SHORT {
            self.short = suffix;
            return;
        }
        let origin = origin as usize;
        if origin >= POINTED {
            return;
        }
        if origin >= self.long.len() && self.long.resize(origin + 1, no_suffix()).is_err() {
            return;
        }
        self.long[origin] = suffix;
    }

    /// Keeps where a suffix stands written, for the place of its first label. If no pointer can lead there, only the place of the next
    /// label is kept. Where memory runs out, nothing is.
    pub(crate) fn keep(&mut self, origin: u16, octets: &'a [u8], place: usize, next: u16)
        ensures { (starts : List Start)
            → AreMet starts self.old
            → (place < POINTED → found starts octets.now ≡ Some place)
            → AreMet starts self.new }
    {
        let suffix = if place < POINTED {
            let place = place as u16;
            MetSuffix {
                octets,
                place,
                next,
            }
        } else {
            without_place(next)
        };
        self.set(origin, suffix);
    }
}

/// A part of a name's places: those of its labels, the last one first, and that of the label behind them.
#[derive(Clone, Copy)]
pub(crate) struct Steps<'w> {
    new: &'w [u16],
    joined: u16,
}

impl<'w> Steps<'w> {
    pub(crate) fn of(places: &'w LabelPlaces) -> Steps<'w> {
        Steps {
            new: &places.new,
            joined: places.joined,
        }
    }

    /// The place of the first label.
    pub(crate) fn first(&self) -> u16 {
        match self.new.last() {
            Some(place) => *place,
            None => self.joined,
        }
    }

    /// The steps behind the first label.
    pub(crate) fn behind(&self, met: &MetSuffixes) -> Steps<'w> {
        if let Some((_, new)) = self.new.split_last() {
            return Steps {
                new,
                joined: self.joined,
            };
        }
        let joined = match met.at(self.joined) {
            Some(suffix) => suffix.next,
            None => NOWHERE,
        };
        Steps { new: &[], joined }
    }
}
