// What an event works with.
use binding_table::SeenAddresses;
use dns_plans::UnitOctets;
use event_outbox::Scratch;
use expiring_table::Seed;
use gate_base::OutOfMemory;
use std::alloc::Global;

/// What an event works with: the memory, and buffers that each event uses again.
pub struct Workspace {
    pub alloc: Global,
    pub scratch: Scratch,
    pub seen_addresses: SeenAddresses,
    pub octets: UnitOctets,
}

// By a call of its own, since a drop that is written out wherever it happens is slow to prove.
impl Drop for Workspace {
    fn drop(self) {
        let Self {
            alloc,
            scratch,
            seen_addresses,
            octets,
        } = self;
    }
}

impl Workspace {
    /// Empty buffers. The seed spreads the keys of the addresses that an event counts. The error is that there is too little memory.
    pub fn new(alloc: Global, seed: Seed) -> Result<Workspace, OutOfMemory> {
        Ok(Workspace {
            alloc,
            scratch: Scratch::new(alloc)?,
            seen_addresses: SeenAddresses::new(alloc, seed)?,
            octets: UnitOctets::new(alloc)?,
        })
    }
}
