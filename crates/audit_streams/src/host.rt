// One host of a session over whole lists.
ghost use Rattle.std.specs.Prelude.{◌≡◌, ◌≤◌, ◌<◌, ◌+◌, ◌-◌, ◌^◌, ◌++◌, ◌∷◌, ◌||◌, ◌&&◌, ◌==◌, ℕ, false, cond, List, [], length, max, slice_range, slice_get, Some, IfOk, OnOk, nat_lt};
ghost use Rattle.dialogue.specs.Prelude.{is_unlike, differ, is_listed, listed_image, ReadAlike, AllUnitsListed, AreImages, image, back};
ghost use Rattle.dialogue.specs.declared.TheConstants.{MOST_ENTRIES};
ghost use Rattle.stream_model.specs.Prelude.{due_in, recent, extent, open_of};
ghost use Rattle.audit_streams.specs.Hosts.{unheard, held_in};
ghost use Rattle.audit_streams.specs.Inside.Hosts.{sender_of};
ghost use Rattle.stream_model.specs.declared.refusals.TheConstants.{STREAM_LIMIT};

use crate::taking::take_octets;
use crate::transcript::Transcript;
use dialogue::{Dialogue, Learns, UnitImage};
use gate_base::{Addr, OutOfMemory};
use std::alloc::Global;
use std::marker::Model;
use stream_model::{Extent, Stands};

/// A host: what its octets become on the way, and all of them.
#[derive(Drop)]
pub(crate) struct WholeStream<D: Dialogue> {
    dialogue: D,
    mss: u16,
    initial: Option<u32>,
    transcript: Transcript,
    // the rest is neither empty nor held
    released: bool,
    ended: bool,
    acked: u64,
}

impl<D: Dialogue> Model for WholeStream<D> {
    ghost use Rattle.audit_streams.specs.Inside.Hosts.{HeardStream};
    ghost use Rattle.audit_streams.specs.Inside.Transcripts.{IsOf};

    ghost Value = { HeardStream D };

    ghost view = { λ a. record { dialogue = a.dialogue; heard = record { mss = a.mss; initial = a.initial; octets = a.transcript.octets; ended = a.ended; acked = a.acked } } };

    ghost invariant = { λ a. IsOf (D.meaning a.dialogue) a.transcript a.released };
}

impl<D: Dialogue> WholeStream<D> {
    pub(crate) fn new(alloc: Global, dialogue: D, initial: Option<u32>, mss: u16) -> WholeStream<D>
        ensures { result
            ≡ record { dialogue = dialogue; heard = unheard initial mss } }
    {
        WholeStream {
            dialogue,
            mss,
            initial,
            transcript: Transcript::new(alloc),
            released: false,
            ended: false,
            acked: 0,
        }
    }

    /// What a refusal needs to know of it.
    pub(crate) fn extent(&self) -> Extent
        ensures { result ≡ extent (sender_of D.meaning self.now) }
    {
        Extent {
            initial: self.initial,
            octets: self.transcript.octets().len() as u32,
            due: self.due_len() as u32,
            ended: self.ended,
            recent: self.recent().len() as u32,
        }
    }

    /// The largest segment that it takes.
    pub(crate) fn mss(&self) -> u16
        ensures { result ≡ self.now.heard.mss }
    {
        self.mss
    }

    // How many octets it has sent so far.
    fn count(&self) -> u64
        ensures count { result ≡ length self.now.heard.octets }
        ensures few { result < STREAM_LIMIT }
    {
        self.transcript.octets().len() as u64
    }

    // How many octets of their image are due.
    fn due_len(&self) -> u64
        ensures due { result ≡ length (due_in (sender_of D.meaning self.now)) }
        ensures within { result
            ≤ length (image (D.meaning self.now.dialogue) self.now.heard.octets) }
        ensures few { result < 2 ^ 31 }
    {
        let all = self.transcript.image().len();
        if self.ended || self.released {
            return all as u64;
        }
        (all - self.transcript.rest_len()) as u64
    }

    // How many octets their whole image has.
    fn image_len(&self) -> u64
        ensures len { result
            ≡ length (image (D.meaning self.now.dialogue) self.now.heard.octets) }
        ensures few { result < 2 ^ 31 }
    {
        self.transcript.image().len() as u64
    }

    /// The octets after the last whole unit, if they are held.
    pub(crate) fn rest(&self) -> &[u8]
        ensures { result.now ≡ held_in (sender_of D.meaning self.now) }
    {
        if self.ended || self.released {
            return &[];
        }
        self.transcript.rest()
    }

    /// The octets that may be sent again.
    fn recent(&self) -> &[u8]
        ensures octets { result.now ≡ recent (sender_of D.meaning self.now) }
        ensures few { length result.now < STREAM_LIMIT }
    {
        let octets = self.transcript.octets();
        let start = self.back(self.acked).min(octets.len() as u64);
        &octets[start as usize..]
    }

    /// Whether octets that start so far before the end of its octets have another octet than the recent ones at a place that both
    /// have.
    pub(crate) fn is_unlike(&self, before: u64, octets: &[u8]) -> bool
        ensures { result
            ≡ is_unlike (recent (sender_of D.meaning self.now)) before octets.now }
    {
        let known = self.recent();
        let skipped = before
            .saturating_sub(known.len() as u64)
            .min(octets.len() as u64);
        let first = (known.len() as u64).saturating_sub(before);
        differ(&octets[skipped as usize..], &known[first as usize..])
    }

    // It has ended, and the place is the one behind its end.
    fn is_past_end(&self, place: u64) -> bool
        ensures { result
            ≡ (self.now.heard.ended
            && place == length
            (image (D.meaning self.now.dialogue) self.now.heard.octets)
            + 1) }
    {
        self.ended && place == self.image_len() + 1
    }

    /// How many changed units are not acknowledged whole.
    pub(crate) fn pending(&self) -> usize
        ensures { result ≡ open_of (sender_of D.meaning self.now) }
    {
        self.transcript.above(self.acked)
    }

    /// A SYN brings the initial number and the maximum segment size.
    pub(crate) fn open(&mut self, initial: u32, mss: u16)
        ensures { self.new
            ≡ record self.old {
              heard =
                  record self.old.heard { initial = Some initial; mss = mss };
            } }
    {
        self.initial = Some(initial);
        self.mss = mss;
    }

    /// Takes octets that follow, and the end.
    pub(crate) fn take(&mut self, alloc: Global, fresh: &[u8], fin: bool) -> Result<(), OutOfMemory>
        requires limit { length self.old.heard.octets + length fresh.now < STREAM_LIMIT }
        ensures dialogue { self.new.dialogue ≡ self.old.dialogue }
        ensures taken { OnOk result (self.new
            ≡ record self.old {
              heard = record self.old.heard {
                octets = self.old.heard.octets ++ fresh.now;
                ended = self.old.heard.ended || fin;
              };
            }) }
    {
        take_octets(
            alloc,
            &mut self.dialogue,
            &mut self.transcript,
            &mut self.released,
            fresh,
        )?;
        self.ended = self.ended || fin;
        Ok(())
    }

    /// Its image is acknowledged up to a place.
    pub(crate) fn acknowledge(&mut self, place: u64)
        ensures { self.new
            ≡ record self.old {
              heard = record self.old.heard {
                acked = max self.old.heard.acked place;
              };
            } }
    {
        self.acked = self.acked.max(place);
    }

    /// The octets of its image from one place to before another, if there are any.
    pub(crate) fn copy_image(
        &self,
        alloc: Global,
        first: u64,
        past: u64,
    ) -> Result<Vec<u8>, OutOfMemory>
        requires { past
            ≤ length (image (D.meaning self.now.dialogue) self.now.heard.octets) }
        ensures { IfOk result (λ octets. octets.items
            ≡ cond (nat_lt first past)
            (slice_range (image (D.meaning self.now.dialogue) self.now.heard.octets)
            first past) []) }
    {
        if past <= first {
            return Ok(Vec::new(alloc));
        }
        let octets = Vec::from_slice(
            alloc,
            &self.transcript.image()[first as usize..past as usize],
        )?;
        Ok(octets)
    }
}

impl<D: Dialogue> Stands for WholeStream<D> {
    ghost use Rattle.stream_model.specs.Prelude.{standing};
    ghost use Rattle.audit_streams.specs.Inside.Hosts.{sender_of};

    ghost standing = { λ a. standing (sender_of D.meaning a) };

    fn initial(&self) -> Option<u32> {
        self.initial
    }

    fn octets(&self) -> u32 {
        self.count() as u32
    }

    fn due(&self) -> u32 {
        self.due_len() as u32
    }

    fn has_ended(&self) -> bool {
        self.ended
    }

    fn acked(&self) -> u64 {
        self.acked
    }

    fn back(&self, place: u64) -> u64 {
        if self.is_past_end(place) {
            return self.count() + 1;
        }
        self.transcript.below(place)
    }

    fn fore(&self, place: u64) -> u64 {
        self.transcript.fore(place, self.due_len())
    }

    fn rear(&self, end: u64) -> u64 {
        self.transcript.rear(end, self.due_len())
    }
}

impl<D: Learns> WholeStream<D> {
    /// What its list has of this address: `Some(image)` for an entry with an image, `Some(None)` for an address that is kept, and
    /// None without an entry.
    pub(crate) fn image_of(&self, address: Addr) -> Option<Option<Addr>>
        ensures { result ≡ listed_image (D.entries self.now.dialogue) address.0 }
    {
        self.dialogue.image_of(address)
    }

    /// The number of entries.
    pub(crate) fn listed(&self) -> usize
        ensures { result ≡ length (D.entries self.now.dialogue) }
    {
        self.dialogue.len()
    }

    /// The entry at a place.
    pub(crate) fn entry(&self, place: usize) -> (Addr, Option<Addr>)
        requires { place < length (D.entries self.now.dialogue) }
        ensures { slice_get (D.entries self.now.dialogue) place ≡ Some result }
    {
        self.dialogue.entry(place)
    }

    /// Appends an entry. All addresses in its whole units have to be listed already: its lists then stay as they are.
    pub(crate) fn learn(&mut self, address: Addr, image: Option<Addr>)
        requires unknown { is_listed (D.entries self.old.dialogue) address.0 ≡ false }
        requires few { length (D.entries self.old.dialogue) < MOST_ENTRIES }
        requires known { AllUnitsListed D.addresses (D.meaning self.old.dialogue)
            (D.entries self.old.dialogue) self.old.heard.octets }
        ensures entries { D.entries self.new.dialogue
            ≡ D.entries self.old.dialogue ++ (address, image) ∷ [] }
        ensures heard { self.new.heard ≡ self.old.heard }
        ensures alike { (s : List ℕ)
            → AllUnitsListed D.addresses (D.meaning self.old.dialogue)
            (D.entries self.old.dialogue) s
            → ReadAlike (D.meaning self.old.dialogue) (D.meaning self.new.dialogue)
            s }
    {
        self.dialogue.learn(address, image);
    }

    /// Takes the images of the units that come next, in their order.
    pub(crate) fn expect(&mut self, images: Vec<UnitImage>)
        requires { AreImages (D.meaning self.old.dialogue) images.items }
        ensures { self.new ≡ self.old }
    {
        self.dialogue.expect(images);
    }
}

/// Whether two lists of octets differ where both have octets.
fn differ(these: &[u8], others: &[u8]) -> bool
    ensures { result ≡ differ these.now others.now }
{
    let count = these.len().min(others.len());
    these[..count] != others[..count]
}
