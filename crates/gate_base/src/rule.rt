ghost use Rattle.std.specs.Prelude.{◌≡◌, IfOk};

use crate::{Items, OutOfMemory};
use std::alloc::Global;

/// The greatest arc of an object identifier, the greatest number of 32 bits.
pub const GREATEST_ARC: u64 = 4_294_967_295;

/// The most arcs of the prefix of a rule.
pub const MOST_ARCS: usize = 64;

/// The arcs of an object identifier, from the root on (X.690, 8.19).
pub type Arcs = Items<u32>;

/// Where object identifiers hold an address: after these arcs and as many more as are skipped, as four arcs of at most
/// 255 (RFC 2962, 4.2).
#[derive(Drop)]
pub struct OidRule {
    /// The arcs with which the identifier begins, 2 to 64 of them.
    pub prefix: Arcs,
    /// How many arcs stand between them and the address, at most 127.
    pub skip: u32,
}

impl OidRule {
    /// The same rule once more.
    pub fn copy(&self, alloc: Global) -> Result<OidRule, OutOfMemory>
        ensures { IfOk result (λ copy. copy ≡ self.now) }
    {
        Ok(OidRule {
            prefix: self.prefix.copy(alloc)?,
            skip: self.skip,
        })
    }
}
