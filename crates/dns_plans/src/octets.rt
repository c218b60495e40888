// Room for the octets in which units end.
ghost use Rattle.std.specs.Prelude.{◌≡◌, ◌≤◌, ◌+◌, ◌++◌, [], length, IfOk};
ghost use Rattle.gate_base.specs.declared.protocol.TheConstants.{LONGEST_DATAGRAM};
ghost use Rattle.dns_stream.specs.declared.messages.TheConstants.{LONGEST_STREAMED};

use gate_base::OutOfMemory;
use std::alloc::Global;
use std::marker::Model;

/// More than a held rest and the octets of a segment.
const OCTETS: usize = 131_072;

/// Room for the octets of a host in which units may end: its held rest and what goes on behind it. It is seen as the octets.
#[derive(Drop)]
pub struct UnitOctets {
    octets: Vec<u8>,
}

impl Model for UnitOctets {
    ghost use Rattle.std.specs.Prelude.{ℕ, List, ◌≤◌, vec_capacity};

    ghost Value = { List ℕ };

    ghost view = { λ room. room.octets.items };

    ghost invariant = { λ room. 131072 ≤ vec_capacity room.octets };
}

impl UnitOctets {
    /// No octets. The error is that there is too little memory.
    pub fn new(alloc: Global) -> Result<UnitOctets, OutOfMemory>
        ensures { IfOk result (λ room. room ≡ []) }
    {
        Ok(UnitOctets {
            octets: Vec::with_capacity(alloc, OCTETS)?,
        })
    }

    /// The octets.
    pub fn octets(&self) -> &[u8]
        ensures { result.now ≡ self.now }
    {
        &self.octets
    }

    /// No octets any more.
    pub fn clear(&mut self)
        ensures { self.new ≡ [] }
    {
        self.octets.clear();
    }

    /// Holds a rest and what follows it.
    pub fn join(&mut self, rest: &[u8], fresh: &[u8])
        requires rest { length rest.now ≤ LONGEST_STREAMED + 1 }
        requires fresh { length fresh.now ≤ LONGEST_DATAGRAM }
        ensures { self.new ≡ rest.now ++ fresh.now }
    {
        self.octets.clear();
        let _rest = self.octets.extend_from_slice(rest);
        let _fresh = self.octets.extend_from_slice(fresh);
    }
}
