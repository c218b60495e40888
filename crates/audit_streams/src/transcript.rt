// One host's stream, written out as whole lists.
ghost use Rattle.std.specs.Prelude.{◌≡◌, ◌≤◌, ◌<◌, ◌+◌, ◌-◌, ◌^◌, [], length, nat_lt, count_by, OnOk, OnErr};
ghost use Rattle.std.specs.List.{slice_get};
ghost use Rattle.std.specs.Option.{option_map};
ghost use Rattle.dialogue.specs.Prelude.{fore_in, rear_in, back_in};
ghost use Rattle.audit_streams.specs.Inside.Transcripts.{span_of, rest_of, with_octets, closed, rest_at, changed, last_by};
ghost use Rattle.stream_model.specs.declared.refusals.TheConstants.{STREAM_LIMIT};

use gate_base::OutOfMemory;
use std::alloc::Global;
use std::marker::Model;

/// A unit with another image. Its octets are those from `first` to before `past`, and its image stands from `at` to before `end`.
#[derive(Clone, Copy)]
pub(crate) struct ChangedUnit {
    pub(crate) first: u32,
    pub(crate) past: u32,
    pub(crate) at: u32,
    pub(crate) end: u32,
}

/// The image places of one octet: from `first` to before `past`.
#[derive(Clone, Copy)]
pub(crate) struct Places {
    pub(crate) first: u64,
    pub(crate) past: u64,
}

/// The octets, their image, the units with another image, and where the rest after the last whole unit begins. There are fewer than
/// `STREAM_LIMIT` octets, and fewer than 2^31 of the image. Contracts see the octets, the image, the image places of each octet, where the
/// images of changed units end, and where the rest begins.
#[derive(Drop)]
pub(crate) struct Transcript {
    octets: Vec<u8>,
    image: Vec<u8>,
    units: Vec<ChangedUnit>,
    rest: usize,
}

impl Model for Transcript {
    ghost use Rattle.std.specs.Prelude.{length, map};
    ghost use Rattle.audit_streams.specs.Inside.Transcripts.{Transcribed, IsTranscript, places_from};

    ghost Value = { Transcribed };

    ghost view = { λ l. record { octets = l.octets.items; image = l.image.items; places = places_from 0 0 l.units.items (length l.octets.items); ends = map (λ u. u.end) l.units.items; rest = l.rest } };

    ghost invariant = { λ l. IsTranscript l.octets.items l.image.items l.units.items l.rest };
}

impl Transcript {
    /// No octets.
    pub(crate) fn new(alloc: Global) -> Transcript
        ensures { result
            ≡ record { octets = []; image = []; places = []; ends = []; rest = 0 } }
    {
        Transcript {
            octets: Vec::new(alloc),
            image: Vec::new(alloc),
            units: Vec::new(alloc),
            rest: 0,
        }
    }

    /// The octets.
    pub(crate) fn octets(&self) -> &[u8]
        ensures octets { result.now ≡ self.now.octets }
        ensures few { length result.now < STREAM_LIMIT }
    {
        &self.octets
    }

    /// Their image.
    pub(crate) fn image(&self) -> &[u8]
        ensures octets { result.now ≡ self.now.image }
        ensures few { length result.now < 2 ^ 31 }
    {
        &self.image
    }

    /// The octets after the last whole unit.
    pub(crate) fn rest(&self) -> &[u8]
        ensures octets { result.now ≡ rest_of self.now }
        ensures within { length result.now + self.now.rest ≡ length self.now.octets }
    {
        &self.octets[self.rest..]
    }

    /// How many octets the rest has, of which the image has as many at its end.
    pub(crate) fn rest_len(&self) -> usize
        ensures len { result ≡ length self.now.octets - self.now.rest }
        ensures within { result ≤ length self.now.image }
    {
        self.octets.len() - self.rest
    }

    /// The least image place of an octet, at most `due`.
    pub(crate) fn fore(&self, octet: u64, due: u64) -> u64
        ensures { result ≡ fore_in self.now.places due octet }
    {
        match self.place(octet) {
            Some(found) => found.first.min(due),
            None => due,
        }
    }

    /// One more than the greatest image place of the octet before one, at most `due`.
    pub(crate) fn rear(&self, end: u64, due: u64) -> u64
        ensures rear { result ≡ rear_in self.now.places due end }
        ensures few { result ≤ due }
    {
        if end == 0 {
            return 0;
        }
        match self.place(end - 1) {
            Some(found) => found.past.min(due),
            None => due,
        }
    }

    // The places of an octet.
    fn place(&self, octet: u64) -> Option<Places>
        ensures { option_map span_of result ≡ slice_get self.now.places octet }
    {
        if octet >= self.octets.len() as u64 {
            return None;
        }
        let next = self
            .units
            .partition_point(|unit| u64::from(unit.past) <= octet);
        let (before, behind) = self.units.split_at(next);
        match behind.first() {
            Some(unit) => {
                if u64::from(unit.first) <= octet {
                    return Some(Places {
                        first: u64::from(unit.at),
                        past: u64::from(unit.end),
                    });
                }
                Some(place_behind(before, octet))
            }
            None => Some(place_behind(before, octet)),
        }
    }

    /// How many octets have all their image places below one.
    pub(crate) fn below(&self, place: u64) -> u64
        ensures back { result ≡ back_in self.now.places place }
        ensures few { result < STREAM_LIMIT }
    {
        let next = self
            .units
            .partition_point(|unit| u64::from(unit.end) <= place);
        let (before, behind) = self.units.split_at(next);
        let until = match behind.first() {
            Some(unit) => u64::from(unit.first),
            None => self.octets.len() as u64,
        };
        let (octet, start) = ends_of(before);
        octet + (place - start).min(until - octet)
    }

    /// How many changed units have an image that ends above a place.
    pub(crate) fn above(&self, place: u64) -> usize
        ensures { result ≡ count_by (λ end. nat_lt place end) self.now.ends }
    {
        self.units.len()
            - self
                .units
                .partition_point(|unit| u64::from(unit.end) <= place)
    }

    /// Appends octets, which go on as they are.
    pub(crate) fn extend(&mut self, octets: &[u8]) -> Result<(), OutOfMemory>
        requires few { length self.old.octets + length octets.now < STREAM_LIMIT }
        requires short { length self.old.image + length octets.now < 2 ^ 31 }
        ensures ok { OnOk result (self.new ≡ with_octets self.old octets.now) }
        ensures err { OnErr result (self.new ≡ self.old) }
    {
        self.image.reserve(octets.len())?;
        self.octets.extend_from_slice(octets)?;
        let _fits = self.image.extend_from_slice(octets);
        Ok(())
    }

    /// The rest is a unit that goes on as it is.
    pub(crate) fn close(&mut self)
        ensures { self.new ≡ closed self.old }
    {
        self.rest = self.octets.len();
    }

    /// The rest and octets that follow are a unit with this image.
    pub(crate) fn change(&mut self, octets: &[u8], image: &[u8]) -> Result<(), OutOfMemory>
        requires some { self.old.rest < length self.old.octets + length octets.now }
        requires few { length self.old.octets + length octets.now < STREAM_LIMIT }
        requires short { rest_at self.old + length image.now < 2 ^ 31 }
        ensures ok { OnOk result
            (self.new ≡ changed (with_octets self.old octets.now) image.now) }
        ensures err { OnErr result (self.new ≡ self.old) }
    {
        let past = self.octets.len() + octets.len();
        let at = self.image.len() - (self.octets.len() - self.rest);
        let end = at + image.len();
        self.image.reserve(image.len())?;
        self.units.reserve(1)?;
        self.octets.extend_from_slice(octets)?;
        self.image.truncate(at);
        let _fits = self.image.extend_from_slice(image);
        self.units.push_reserved(ChangedUnit {
            first: self.rest as u32,
            past: past as u32,
            at: at as u32,
            end: end as u32,
        });
        self.rest = past;
        Ok(())
    }
}

// The places of an octet that stands as it is, behind these units.
fn place_behind(units: &[ChangedUnit], octet: u64) -> Places
    requires behind { last_by (λ u. u.past) 0 units.now ≤ octet }
    requires few { octet < STREAM_LIMIT }
    ensures first { result.first
        ≡ last_by (λ u. u.end) 0 units.now
        + (octet - last_by (λ u. u.past) 0 units.now) }
    ensures past { result.past ≡ result.first + 1 }
{
    let (past, end) = ends_of(units);
    let first = end + (octet - past);
    Places {
        first,
        past: first + 1,
    }
}

// Where the octets of the last of these units end, and where its image ends. Both are 0 if there is none.
fn ends_of(units: &[ChangedUnit]) -> (u64, u64)
    ensures past { result.0 ≡ last_by (λ u. u.past) 0 units.now }
    ensures end { result.1 ≡ last_by (λ u. u.end) 0 units.now }
    ensures short { result.1 < 2 ^ 32 }
{
    match units.last() {
        Some(unit) => (u64::from(unit.past), u64::from(unit.end)),
        None => (0, 0),
    }
}
