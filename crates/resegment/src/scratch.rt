// Room for octets that are worked on.
use gate_base::OutOfMemory;
use std::alloc::Global;
use std::marker::Model;

/// How many octets are worked on at most at once: those of a session that takes a segment, or four times those of an SNMP message.
pub const SCRATCH_OCTETS: usize = 262_144;

/// Room for the octets that a session works on while it takes a segment, or for an SNMP message that is renamed. It is empty
/// before and after.
#[derive(Drop)]
pub struct Scratch {
    /// The octets.
    pub octets: Vec<u8>,
}

impl Model for Scratch {
    ghost use Rattle.std.specs.Prelude.{◌≡◌, ◌≤◌, [], vec_capacity};
    ghost use Rattle.resegment.specs.declared.scratch.TheConstants.{SCRATCH_OCTETS};

    ghost Value = { Unit {0} };

    ghost view = { λ _. tt };

    ghost invariant = { λ scratch. (scratch.octets.items ≡ []) × (SCRATCH_OCTETS ≤ vec_capacity scratch.octets) };
}

impl Scratch {
    /// The room. The error is that there is too little memory.
    pub fn new(alloc: Global) -> Result<Scratch, OutOfMemory> {
        Ok(Scratch {
            octets: Vec::with_capacity(alloc, SCRATCH_OCTETS)?,
        })
    }
}
