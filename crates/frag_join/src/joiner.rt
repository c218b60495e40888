// The datagrams that are joined.
ghost use Rattle.std.specs.Prelude.{◌≡◌, ◌<◌, ◌≤◌, ◌+◌, ◌++◌, ◌∷◌, [], Some, None, IfOk, IfSome, IsSome, true, false, length, slice_get, position, not, vec_capacity};
ghost use Rattle.gate_base.specs.Prelude.{event_of};
ghost use Rattle.ipv4_frames.specs.Ipv4.{has_bad_header};
ghost use Rattle.frag_join.specs.Fragments as fragments;
ghost use Rattle.frag_join.specs.Coverage as known;
ghost use Rattle.frag_join.specs.Coverage.{Coverage};
ghost use Rattle.frag_join.specs.Joining as joining;
ghost use Rattle.frag_join.specs.Inside.Kept.{known_at, put_at, new_part};
ghost use Rattle.frag_join.specs.declared.part.Part.{Part};

use crate::buffer::Buffer;
use crate::fragment::{FragmentView, fragment_octets, has_options, name_of};
use crate::part::{Name, Part};
use crate::taken::Taken;
use crate::whole::Whole;
use gate_base::{Event, Moment, OutOfMemory};
use std::alloc::Global;
use std::marker::Model;
use verdicts::Refusal;

/// The most datagrams that are joined at once.
pub const MOST_JOINED: usize = 64;

/// Joins the fragments of datagrams, in whatever order they come. It is seen as the datagrams of which fragments are held,
/// with what is known of each, and the datagram that the last frame completed. No call after `new` takes memory.
pub struct Joiner {
    parts: Vec<Part<Buffer>>,
    joined: Option<Whole>,
    // the buffers of no datagram
    spare: Vec<Buffer>,
}

// By a call of its own, since a drop that is written out wherever it happens is slow to prove.
impl Drop for Joiner {
    fn drop(self) {
        let Self {
            parts,
            joined,
            spare,
        } = self;
    }
}

impl Model for Joiner {
    ghost use Rattle.frag_join.specs.Coverage.{Coverage};
    ghost use Rattle.frag_join.specs.Joining.{State};

    ghost Value = { State Coverage };

    ghost use Rattle.frag_join.specs.Inside.Kept.{state_of, IsFull};

    ghost view = { state_of };

    ghost invariant = { IsFull };
}

impl Joiner {
    /// A joiner that holds nothing, with all the memory that it ever needs: for 64 datagrams of 65,535 octets. The error is
    /// that there is too little memory.
    pub fn new(alloc: Global) -> Result<Joiner, OutOfMemory>
        ensures { IfOk result (λ joiner. joiner ≡ joining.empty) }
    {
        let mut spare = Vec::with_capacity(alloc, MOST_JOINED)?;
        for _ in 0..MOST_JOINED {
            spare.push_reserved(Buffer::new(alloc)?);
        }
        Ok(Joiner {
            parts: Vec::with_capacity(alloc, MOST_JOINED)?,
            joined: None,
            spare,
        })
    }

    /// The number of datagrams of which fragments are held, at most 64.
    pub fn len(&self) -> usize
        ensures { result ≡ length self.now.parts }
    {
        self.parts.len()
    }

    /// Takes a frame. First the fragments of each datagram are dropped whose first came 30 seconds ago or earlier. A
    /// fragment that isn't refused is held in its place of its datagram, and a datagram that it completes is joined
    /// (RFC 791, 3.2). One that is refused changes nothing else.
    pub fn take(&mut self, event: &Event<'_>) -> Taken
        ensures answer { result
            ≡ (joining.step joining.by_known self.old (event_of event.now)).answer }
        ensures state { self.new
            ≡ (joining.step joining.by_known self.old (event_of event.now)).state }
        ensures joined { result ≡ Taken.Joined → IsSome self.new.joined }
    {
        self.give_back();
        drop_ended(&mut self.parts, &mut self.spare, event.moment);
        match fragment_octets(event) {
            Some(octets) => self.take_fragment(event, octets),
            None => Taken::Plain,
        }
    }

    /// The datagram that the last frame completed, as an event with that frame's side and moment.
    pub fn event(&self) -> Event<'_>
        requires { IsSome self.now.joined }
        ensures { self.now.joined ≡ Some (event_of result) }
    {
        match &self.joined {
            Some(whole) => whole.event(),
            None => unreachable!(),
        }
    }

    // The buffer of a joined datagram is spare again.
    fn give_back(&mut self)
        ensures { self.new ≡ record self.old { joined = None } }
    {
        if self.joined.is_none() {
            return;
        }
        if let Some(whole) = self.joined.take() {
            self.spare.push_reserved(whole.into_buffer());
        }
    }

    #[inline(never)]
    fn take_fragment(&mut self, event: &Event<'_>, octets: &[u8]) -> Taken
        requires joined { self.old.joined ≡ None }
        requires header { has_bad_header octets.now ≡ false }
        requires octets { octets.now ≡ fragments.octets_of (event_of event.now) }
        ensures answer { result
            ≡ (joining.fragment_step joining.by_known self.old.parts
            (event_of event.now)).answer }
        ensures state { self.new
            ≡ (joining.fragment_step joining.by_known self.old.parts
            (event_of event.now)).state }
    {
        if has_options(octets) {
            return Taken::Refused(Refusal::IpOptions);
        }
        let name = name_of(event.side, octets);
        let fragment = FragmentView::of(octets);
        let place = place_of(&self.parts, &name);
        if self.is_bad(place, &fragment) {
            return Taken::Refused(Refusal::BadFragment);
        }
        match place {
            Some(place) => self.put(place, event, &fragment),
            None if self.len() < MOST_JOINED => {
                let place = self.begin_datagram(name, event.moment);
                self.put(place, event, &fragment)
            }
            None => Taken::Refused(Refusal::FragmentsFull),
        }
    }

    // Whether a fragment of the datagram at a place, or of a new one, contradicts itself or what is held.
    fn is_bad(&self, place: Option<usize>, fragment: &FragmentView<'_>) -> bool
        requires { IfSome place (λ n. n < length self.now.parts) }
        ensures { result ≡ known.is_bad (known_at self.now.parts place) fragment.now }
    {
        match place {
            Some(place) => self.parts[place].kept.is_bad(fragment),
            None => fragment.is_torn(),
        }
    }

    // Puts a fragment into the datagram at a place. One that is complete is joined.
    fn put(&mut self, place: usize, event: &Event<'_>, fragment: &FragmentView<'_>) -> Taken
        requires within { place < length self.old.parts }
        requires joined { self.old.joined ≡ None }
        requires fragment { fragment.now
            ≡ fragments.fragment_in (event_of event.now) }
        requires good { known.is_bad (known_at self.old.parts (Some place))
            fragment.now ≡ false }
        ensures answer { (part : Part Coverage)
            → slice_get self.old.parts place ≡ Some part
            → result
            ≡ (put_at self.old.parts place (event_of event.now) part).answer }
        ensures state { (part : Part Coverage)
            → slice_get self.old.parts place ≡ Some part
            → self.new
            ≡ (put_at self.old.parts place (event_of event.now) part).state }
    {
        let part = &mut self.parts[place];
        part.kept.put(fragment);
        if !part.kept.is_complete() {
            return Taken::Held;
        }
        let part = self.parts.remove(place);
        self.joined = Some(Whole::of(event.side, event.moment, part.kept));
        Taken::Joined
    }

    // Begins a datagram, and answers its place.
    fn begin_datagram(&mut self, name: Name, since: Moment) -> usize
        requires few { length self.old.parts < MOST_JOINED }
        requires joined { self.old.joined ≡ None }
        ensures place { result ≡ length self.old.parts }
        ensures state { self.new
            ≡ record self.old { parts = self.old.parts ++ new_part name since ∷ [] } }
    {
        let place = self.parts.len();
        match self.spare.pop() {
            Some(buffer) => {
                let mut kept = buffer;
                kept.clear();
                self.parts.push_reserved(Part { name, since, kept });
            }
            None => unreachable!(),
        }
        place
    }
}

// Drops the datagrams whose first fragment came 30 seconds ago or earlier.
fn drop_ended(parts: &mut Vec<Part<Buffer>>, spare: &mut Vec<Buffer>, now: Moment)
    requires { length parts.old.items + length spare.old.items
        ≤ vec_capacity spare.old }
    ensures parts { parts.new.items ≡ joining.live now.0 parts.old.items }
    ensures buffers { length parts.new.items + length spare.new.items
        ≡ length parts.old.items + length spare.old.items }
    ensures room { vec_capacity parts.new ≡ vec_capacity parts.old }
    ensures spare { vec_capacity spare.new ≡ vec_capacity spare.old }
{
    while let Some(place) = ended_place(parts, now) {
        let part = parts.remove(place);
        spare.push_reserved(part.kept);
    }
}

// The place of a datagram whose first fragment came too long ago.
fn ended_place(parts: &[Part<Buffer>], now: Moment) -> Option<usize>
    ensures place { result
        ≡ position (λ part. not (joining.is_live now.0 part)) parts.now }
    ensures within { IfSome result (λ place. place < length parts.now) }
{
    parts.iter().position(|part| !part.is_live(now))
}

// The place of the datagram with a name.
fn place_of(parts: &[Part<Buffer>], name: &Name) -> Option<usize>
    ensures place { result ≡ joining.place_of name.now parts.now }
    ensures within { IfSome result (λ place. place < length parts.now) }
{
    parts.iter().position(|part| part.name.is(name))
}
