// Datagrams one behind the other.
ghost use Rattle.std.specs.Prelude.{◌≡◌, ◌+◌, ◌≤◌, ◌<◌, [], ◌∷◌, length, slice_index, slice_index_or, IfOk, vec_capacity};
ghost use Rattle.gate_base.specs.declared.protocol.TheConstants.{LONGEST_DATAGRAM};
ghost use Rattle.tcp_segments.specs.Prelude.{flags_octet, spelled_segment, datagram_of};
ghost use Rattle.resegment.specs.Datagrams.{datagrams, CanPut, IsFew};

use crate::put::{SegmentModel, append_empty, append_pieces};
use gate_base::OutOfMemory;
use std::alloc::Global;
use std::marker::Model;

/// The most octets of the datagrams that one event gives.
pub const MOST_OCTETS: usize = 524_288;

/// The most datagrams that one event gives.
pub const MOST_DATAGRAMS: usize = 4_096;

/// The datagrams that go out at an event, one behind the other: at most 4,096 with at most 524,288 octets, and room for these. Code that
/// writes a field proves the invariant again.
pub struct Datagrams {
    /// The octets of all datagrams.
    pub octets: Vec<u8>,
    /// Where each datagram ends.
    pub ends: Vec<u32>,
}

// By a call of its own, since a drop that is written out wherever it happens is slow to prove.
impl Drop for Datagrams {
    fn drop(self) {
        let Self { octets, ends } = self;
    }
}

impl Model for Datagrams {
    ghost use Rattle.std.specs.Prelude.{ℕ, List, vec_capacity};
    ghost use Rattle.resegment.specs.Datagrams.{datagrams_from, AreDatagrams};

    ghost Value = { List (List ℕ) };

    ghost view = { λ o. datagrams_from 0 o.octets.items o.ends.items };

    ghost invariant = { λ o. AreDatagrams o.octets.items o.ends.items (vec_capacity o.octets) (vec_capacity o.ends) };
}

impl Datagrams {
    /// No datagrams, with the room for all that an event gives.
    pub fn new(alloc: Global) -> Result<Datagrams, OutOfMemory>
        ensures { IfOk result (λ datagrams. datagrams ≡ []) }
    {
        Ok(Datagrams {
            octets: Vec::with_capacity(alloc, MOST_OCTETS)?,
            ends: Vec::with_capacity(alloc, MOST_DATAGRAMS)?,
        })
    }

    /// The number of datagrams, which is at most 4,096.
    pub fn len(&self) -> usize
        ensures count { result ≡ length self.now }
        ensures few { result ≤ MOST_DATAGRAMS }
    {
        self.ends.len()
    }

    /// The datagram at a place, which has at most 65,535 octets.
    pub fn datagram(&self, place: usize) -> &[u8]
        requires { place < length self.now }
        ensures octets { result.now ≡ slice_index_or self.now place [] }
        ensures short { length result.now ≤ LONGEST_DATAGRAM }
    {
        let start = start_of(&self.ends, place);
        &self.octets[start as usize..self.ends[place] as usize]
    }

    /// Drops all datagrams.
    #[inline(always)]
    pub fn clear(&mut self)
        ensures { self.new ≡ [] }
    {
        self.octets.clear();
        self.ends.clear();
    }

    /// Puts the pieces of these octets, each a whole datagram, where there are none. FIN and PSH stand on the last piece alone. No
    /// octets make one datagram without octets. It takes no memory.
    pub fn put_pieces(&mut self, model: &SegmentModel, octets: &[u8], limit: usize)
        requires none { self.old ≡ [] }
        requires can { CanPut model.now limit }
        requires few { IsFew model.now (length octets.now) limit }
        ensures { self.new ≡ datagrams model.now octets.now limit }
    {
        append_pieces(&mut self.octets, &mut self.ends, model, octets, limit);
    }

    /// Puts one datagram without octets, where there is none. It takes no memory.
    pub fn put_empty(&mut self, model: &SegmentModel)
        requires none { self.old ≡ [] }
        requires can { CanPut model.now 1 }
        ensures { let m = model.now in
            self.new
            ≡ datagram_of m.ip.now m.source.0 m.destination.0 m.lifetime
            (spelled_segment m.tcp.now m.source.0 m.destination.0 m.sequence
            m.acknowledgement (flags_octet m.flags) [])
            ∷ [] }
    {
        append_empty(&mut self.octets, &mut self.ends, model);
    }
}

// Where the datagram at a place begins.
fn start_of(ends: &[u32], place: usize) -> u32
    requires { place ≤ length ends.now }
    ensures { result ≡ slice_index (0 ∷ ends.now) place }
{
    if place == 0 { 0 } else { ends[place - 1] }
}
