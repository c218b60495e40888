// The suffixes that were written, each found by its key.
ghost use Rattle.std.specs.Prelude.{◌≡◌, ◌<◌, ◌++◌, ◌∷◌, [], true, length, OnOk, OnErr};
ghost use Rattle.dns_names.specs.Inside.Ends.{key};
ghost use Rattle.dns_names.specs.Inside.Targets.{Rises, Enters, one_at_most};
ghost use Rattle.dns_names.specs.Inside.Writers.{place_in};

use crate::suffix::Suffix;
use std::alloc::{AllocError, Global};
use std::collections::BTreeMap;
use std::marker::Model;

/// What stands for the place of no labels at all.
pub(crate) const ROOT: u16 = u16::MAX;

/// The suffixes that can be pointed to, each with its place. Behind the first label of most of them stands what was written next, so they
/// come in the order of the places behind their first labels. These are in a list. The first one that is a label alone has a field of its
/// own, and the others are in a tree.
#[derive(Drop)]
pub struct Targets<'a> {
    pub(crate) last: Option<(Suffix<'a>, u16)>,
    pub(crate) rising: Vec<(Suffix<'a>, u16)>,
    // above each place behind a first label in the list
    pub(crate) next: usize,
    pub(crate) others: BTreeMap<Suffix<'a>, u16>,
}

impl<'a> Model for Targets<'a> {
    ghost use Rattle.std.specs.Prelude.{◌++◌, ℕ, List};
    ghost use Rattle.dns_names.specs.declared.suffix.Suffix.{Suffix};
    ghost use Rattle.dns_names.specs.Inside.Targets.{one_at_most, Rises, AreBelow};

    ghost Value = { List (Suffix × ℕ) };

    ghost view = { λ p. one_at_most p.last ++ (p.rising.items ++ p.others.entries) };

    ghost invariant = { λ p. Rises p.rising.items × AreBelow p.next p.rising.items };
}

/// The place of a suffix, if this entry is its.
fn place_if<'a>(entry: &(Suffix<'a>, u16), suffix: &Suffix<'a>) -> Option<u16>
    ensures { result ≡ place_in (entry.now ∷ []) (key suffix.now) }
{
    if *suffix == entry.0 {
        Some(entry.1)
    } else {
        None
    }
}

/// Of the entries below and above a place, those on the side of another one.
#[inline(always)]
fn half_with<'b, 'a>(
    low: &'b [(Suffix<'a>, u16)],
    middle: u16,
    high: &'b [(Suffix<'a>, u16)],
    behind: u16,
) -> &'b [(Suffix<'a>, u16)]
    ensures low { behind < middle → result.now ≡ low.now }
    ensures high { middle < behind → result.now ≡ high.now }
{
    if behind < middle { low } else { high }
}

/// The place of a suffix among entries that rise, by halving.
#[inline(never)]
fn place_among<'a>(rising: &[(Suffix<'a>, u16)], suffix: &Suffix<'a>) -> Option<u16>
    requires rises { Rises rising.now }
    ensures { result ≡ place_in rising.now (key suffix.now) }
{
    // Most names lead to the first one of their message, whose place comes before all those in the list.
    if suffix.behind < rising.first()?.0.behind {
        return None;
    }
    let mut part = rising;
    'parts: while !part.is_empty() {
        let (low, high) = part.split_at(part.len() / 2);
        let (middle, high) = high.split_first()?;
        if suffix.behind == middle.0.behind {
            return place_if(middle, suffix);
        }
        part = half_with(low, middle.0.behind, high, suffix.behind);
    }
    None
}

fn place_at<'a>(last: &Option<(Suffix<'a>, u16)>, suffix: &Suffix<'a>) -> Option<u16>
    ensures { result ≡ place_in (one_at_most last.now) (key suffix.now) }
{
    match last {
        Some(entry) => place_if(entry, suffix),
        None => None,
    }
}

fn place_behind<'a>(
    rising: &[(Suffix<'a>, u16)],
    others: &BTreeMap<Suffix<'a>, u16>,
    suffix: &Suffix<'a>,
) -> Option<u16>
    requires rises { Rises rising.now }
    ensures { result ≡ place_in (rising.now ++ others.now.entries) (key suffix.now) }
{
    match place_among(rising, suffix) {
        Some(place) => Some(place),
        None => others.get(suffix).copied(),
    }
}

impl<'a> Targets<'a> {
    /// Nothing was written.
    pub(crate) fn new(alloc: Global) -> Targets<'a>
        ensures { result ≡ [] }
    {
        Targets {
            last: None,
            rising: Vec::new(alloc),
            next: 0,
            others: BTreeMap::new(alloc),
        }
    }

    /// Whether nothing was written.
    pub(crate) fn is_empty(&self) -> bool
        ensures { result ≡ true → self.now ≡ [] }
    {
        self.last.is_none() && self.rising.is_empty() && self.others.is_empty()
    }

    /// The place of a suffix.
    pub(crate) fn get(&self, suffix: &Suffix<'a>) -> Option<u16>
        ensures { result ≡ place_in self.now (key suffix.now) }
    {
        match place_at(&self.last, suffix) {
            Some(place) => Some(place),
            None => place_behind(&self.rising, &self.others, suffix),
        }
    }

    /// Puts in a suffix that wasn't there.
    pub(crate) fn insert(&mut self, suffix: Suffix<'a>, place: u16) -> Result<(), AllocError>
        ensures enters { OnOk result (Enters suffix.entry place self.old self.new) }
        ensures kept { OnErr result (self.new ≡ self.old) }
    {
        let behind = suffix.behind as usize;
        if suffix.behind == ROOT && self.last.is_none() {
            self.last = Some((suffix, place));
        } else if suffix.behind != ROOT && self.next <= behind {
            self.rising.push((suffix, place))?;
            self.next = behind + 1;
        } else {
            self.others.insert(suffix, place)?;
        }
        Ok(())
    }
}
