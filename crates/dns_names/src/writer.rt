// Names one behind the other, each as short as it can be (RFC 1035, 4.1.4).
ghost use Rattle.std.specs.Prelude.{◌≡◌, ◌+◌, ◌<◌, ◌≤◌, ◌++◌, ◌⊎◌, true, false, ℕ, List, [], length, IfOk, IfSome, OnOk, OnErr, Some};
ghost use Rattle.dns_names.specs.Inside.Ends.{key_of};
ghost use Rattle.dns_names.specs.Names.{IsSpelled};
ghost use Rattle.dns_names.specs.Inside.Names.{labels_in};
ghost use Rattle.dns_names.specs.Inside.Met.{AreMet};
ghost use Rattle.dns_names.specs.Spelling.{Start, found, pointer, spell};
ghost use Rattle.dns_names.specs.Inside.Longest.{IsClosed, IsEdge, edge_by, ending};
ghost use Rattle.dns_names.specs.Inside.Writers.{starts_in, place_in, key_at, GrewBy, IsFresh, IsIndex, Remembers};

use crate::POINTED;
use crate::ending::{Edge, longest};
use crate::met::{MetSuffixes, Steps};
use crate::name::Name;
use crate::suffix::Suffix;
use crate::targets::{ROOT, Targets};
use gate_base::{OutOfMemory, put_u16};
use std::alloc::AllocError;
use std::marker::Model;

/// What stands for a place to which no pointer can lead.
const FAR: u16 = u16::MAX - 1;

/// Keeps the place of a label start, if a pointer can lead there.
fn remember<'a>(
    places: &mut Targets<'a>,
    octets: &'a [u8],
    behind: u16,
    place: usize,
) -> Result<(), AllocError>
    ensures remembers { OnOk result (Remembers (key_of behind octets.now) octets.now place places.old places.new) }
    ensures kept { OnErr result (places.new ≡ places.old) }
{
    if place < POINTED {
        places.insert(Suffix::new(octets, behind), place as u16)?;
    }
    Ok(())
}

/// The edge once the label that begins `octets` was written from `place` to `end`.
fn edge_after<'a>(edge: Edge<'a>, octets: &'a [u8], place: usize, end: usize) -> Edge<'a>
    ensures by { result.octets.now ≡ edge_by edge.entry.octets.now octets.now place end }
    ensures edge { (starts : List Start)
        → IsEdge starts edge.entry
        → (place < POINTED → found starts octets.now ≡ Some place)
        → IsEdge starts result }
{
    if place < POINTED && end >= POINTED {
        let place = place as u16;
        Edge { octets, place }
    } else {
        edge
    }
}

/// Whether nothing is to be written of a name of which so many labels, and these octets, are left.
fn is_end(left: usize, rest: &[u8]) -> bool
    ensures ends { result ≡ true → (left < 1) ⊎ (length rest.now < 1) }
    ensures goes_on { result ≡ false → (1 ≤ left) × (1 ≤ length rest.now) }
{
    left == 0 || rest.is_empty()
}

/// What stands for the place of the rest of a name: `end` where that is reached, and else where it is written next.
fn key_at(is_end: bool, place: usize, end: Option<u16>) -> u16
    ensures { result ≡ key_at is_end place end }
{
    if is_end {
        end.unwrap_or(ROOT)
    } else if place < POINTED {
        place as u16
    } else {
        FAR
    }
}

fn put_pointer(out: &mut Vec<u8>, place: u16) -> Result<(), AllocError>
    requires { place < POINTED }
    ensures octets { OnOk result (out.new.items ≡ out.old.items ++ pointer place) }
    ensures behind { (more : List ℕ) × (out.new.items ≡ out.old.items ++ more) }
    ensures longer { length out.old.items ≤ length out.new.items }
{
    out.push(192 + (place / 256) as u8)?;
    out.push((place % 256) as u8)?;
    Ok(())
}

/// Ends a name by a pointer to a place, or by the root octet.
fn put_end(out: &mut Vec<u8>, place: Option<u16>) -> Result<(), AllocError>
    requires { IfSome place (λ to. to < POINTED) }
    ensures octets { OnOk result (out.new.items ≡ out.old.items ++ ending place) }
    ensures behind { (more : List ℕ) × (out.new.items ≡ out.old.items ++ more) }
    ensures longer { length out.old.items ≤ length out.new.items }
{
    match place {
        Some(place) => put_pointer(out, place),
        None => {
            out.push(0)?;
            Ok(())
        }
    }
}

/// Writes a name, and keeps its label starts. The answer is the new edge.
#[tactic(auto, using(crate::proofs::Putting::grew_none, crate::proofs::Putting::grew_octets))]
fn put_labels<'a>(
    places: &mut Targets<'a>,
    edge: Edge<'a>,
    met: &mut MetSuffixes<'a>,
    name: &'a [u8],
    steps: Steps<'_>,
    out: &mut Vec<u8>,
) -> Result<Edge<'a>, AllocError>
    requires spelled { IsSpelled name.now (labels_in name.now) }
    requires index { IsIndex places.old (length out.old.items) }
    requires fresh { IsFresh places.old (length out.old.items) }
    requires edge { IsEdge (starts_in places.old) edge }
    requires closed { IsClosed (starts_in places.old) edge.octets.now
        (length out.old.items) }
    requires met { AreMet (starts_in places.old) met.old }
    ensures octets { OnOk result (out.new.items
        ≡ out.old.items
        ++ (spell (starts_in places.old) (length out.old.items)
        (labels_in name.now)).octets) }
    ensures starts { OnOk result (starts_in places.new
        ≡ starts_in places.old
        ++ (spell (starts_in places.old) (length out.old.items)
        (labels_in name.now)).starts) }
    ensures behind { GrewBy (starts_in places.old) out.old.items
        (starts_in places.new) out.new.items }
    ensures index { IsIndex places.new (length out.new.items) }
    ensures fresh { OnOk result (IsFresh places.new (length out.new.items)) }
    ensures edge { IfOk result (λ edge. IsEdge (starts_in places.new) edge) }
    ensures closed { IfOk result (λ edge. IsClosed (starts_in places.new)
        edge.octets.now (length out.new.items)) }
    ensures met { AreMet (starts_in places.new) met.new }
{
    let (count, end) = longest(places, edge, met, name, steps);
    let mut edge = edge;
    let mut rest = name;
    let mut left = count;
    let mut steps = steps;
    'labels: while left > 0 && !rest.is_empty() {
        left -= 1;
        let place = out.len();
        let (label, after) = rest.split_at(1 + rest[0] as usize);
        out.extend_from_slice(label)?;
        let behind = key_at(is_end(left, after), out.len(), end);
        remember(places, rest, behind, place)?;
        let next = steps.behind(met);
        met.keep(steps.first(), rest, place, next.first());
        edge = edge_after(edge, rest, place, out.len());
        steps = next;
        rest = after;
    }
    put_end(out, end)?;
    Ok(edge)
}

/// Octets and names, one behind the other. Contracts see the octets, and the label starts below `POINTED` in them with what
/// stands there. The names are lent to it.
#[derive(Drop)]
pub struct NameWriter<'a> {
    octets: Vec<u8>,
    places: Targets<'a>,
    // the suffix behind whose first label the rest may not stand in `places` (`IsClosed`); None after a name that failed
    edge: Option<Edge<'a>>,
    met: MetSuffixes<'a>,
}

impl<'a> Model for NameWriter<'a> {
    ghost use Rattle.std.specs.Prelude.{length, IfSome};
    ghost use Rattle.dns_names.specs.Spelling.{Text};

    ghost Value = { Text };

    ghost use Rattle.dns_names.specs.Inside.Met.{AreMet};
    ghost use Rattle.dns_names.specs.Inside.Writers.{starts_in, IsFresh, IsIndex};
    ghost use Rattle.dns_names.specs.Inside.Longest.{IsClosed, IsEdge};

    ghost view = { λ w. record { octets = w.octets.items; starts = starts_in w.places } };

    ghost invariant = { λ w. IsIndex w.places (length w.octets.items)
        × AreMet (starts_in w.places) w.met
        × IfSome w.edge (λ edge. IsFresh w.places (length w.octets.items)
        × IsEdge (starts_in w.places) edge
        × IsClosed (starts_in w.places) edge.octets.now
        (length w.octets.items)) };
}

impl<'a> NameWriter<'a> {
    ghost use Rattle.std.specs.Prelude.{IfOk};
    ghost use Rattle.dns_names.specs.Names.{IsName};
    ghost use Rattle.dns_names.specs.Spelling as spelling;
    ghost use Rattle.dns_names.specs.Texts.{nothing};

    /// A writer behind a target that is empty, whose allocator it goes on with. Nothing is written yet.
    pub fn new(target: Vec<u8>) -> Result<NameWriter<'a>, OutOfMemory>
        requires { target.items ≡ [] }
        ensures { IfOk result (λ writer. writer ≡ nothing) }
    {
        let alloc = *target.allocator();
        Ok(NameWriter {
            octets: target,
            places: Targets::new(alloc),
            edge: Some(Edge {
                octets: &[],
                place: 0,
            }),
            met: MetSuffixes::new(alloc),
        })
    }

    /// How many octets were written so far.
    pub fn len(&self) -> usize
        ensures { result ≡ length self.now.octets }
    {
        self.octets.len()
    }

    /// Writes octets that are no name, or nothing where memory runs out.
    pub fn put_octets(&mut self, octets: &[u8]) -> Result<(), OutOfMemory>
        ensures text { OnOk result
            (self.new ≡ spelling.put_octets self.old octets.now) }
        ensures kept { OnErr result (self.new ≡ self.old) }
    {
        self.octets.extend_from_slice(octets)?;
        Ok(())
    }

    /// Writes a name label by label, until a suffix of it stands already. Then a pointer to its lowest place ends the name.
    /// Where memory runs out, what was written before stands, and perhaps a part of the name behind it. After that, every `put_name` fails.
    pub fn put_name(&mut self, name: &'a Name) -> Result<(), OutOfMemory>
        ensures text { OnOk result (self.new ≡ spelling.put_name self.old name.now) }
        ensures kept { spelling.BeginsWith self.old self.new }
        ensures name { IsName name.now }
    {
        let octets = name.octets();
        let Some(edge) = self.edge.take() else {
            return Err(OutOfMemory);
        };
        let steps = Steps::of(&name.places);
        let edge = put_labels(
            &mut self.places,
            edge,
            &mut self.met,
            octets,
            steps,
            &mut self.octets,
        )?;
        self.edge = Some(edge);
        Ok(())
    }

    /// Sets a number of 16 bits over two octets that were written before.
    pub fn set_number(&mut self, place: usize, number: u16)
        requires { place + 2 ≤ length self.old.octets }
        ensures { self.new ≡ spelling.with_number self.old place number }
    {
        put_u16(&mut self.octets, place, number);
    }

    /// The octets that were written.
    pub fn finish(self) -> Vec<u8>
        ensures { result.items ≡ self.entry.octets }
    {
        let NameWriter { octets, .. } = self;
        octets
    }
}
