// The settings of a gateway.
ghost use Rattle.std.specs.Prelude.{◌≡◌};
ghost use Rattle.gate_settings.specs.Cross as cross;

use gate_base::{Addr, Items, Link, OidRule, Side};

/// A block of addresses that cross unchanged: those whose first `bits` bits are those of `base` (RFC 4632, 3.1).
/// In settings that were read `bits` is at most 32, and `base` is zero past its first `bits` bits.
#[derive(Clone, Copy, PartialEq, Eq)]
pub struct Block {
    pub base: Addr,
    pub bits: u8,
}

impl Block {
    /// The greatest address of the block, as a number.
    #[tactic(auto, unfolding(crate::specs::Cross::block_end))]
    pub fn end(&self) -> u64
        ensures { result ≡ cross.block_end self.now }
    {
        let rest = 32u32.saturating_sub(u32::from(self.bits));
        u64::from(self.base.0) + ((1u64 << rest) - 1)
    }
}

/// One realm's pool and link.
#[derive(Clone, Copy, PartialEq, Eq)]
pub struct SideSettings {
    /// The least address of the pool.
    pub first: Addr,
    /// The greatest address of the pool, itself part of it.
    pub last: Addr,
    /// What the frames of the realm's captures are.
    pub link: Link,
    /// The gateway's own MAC address on this link, and six zeros where none is given.
    pub gateway_mac: [u8; 6],
    /// The MAC address to which outgoing frames are sent, and six zeros where none is given.
    pub next_mac: [u8; 6],
}

impl SideSettings {
    /// Whether the address lies in the realm's pool.
    pub fn contains(&self, address: Addr) -> bool
        ensures { result ≡ cross.is_in_pool address self.now }
    {
        self.first.0 <= address.0 && address.0 <= self.last.0
    }
}

/// A binding that never ends.
#[derive(Clone, Copy, PartialEq, Eq)]
pub struct Fixed {
    /// The realm of the host.
    pub side: Side,
    /// The host's address in its own realm.
    pub host: Addr,
    /// The address by which the other realm knows the host, in that realm's pool.
    pub alias: Addr,
}

/// A list of blocks.
pub type Blocks = Items<Block>;

/// A list of static bindings.
pub type Statics = Items<Fixed>;

/// A list of rules about object identifiers.
pub type OidRules = Items<OidRule>;

/// How the lines of a report are written: as plain text, or each as an object of JSON.
#[derive(Clone, Copy, Debug, PartialEq, Eq)]
pub enum ReportForm {
    Text,
    Json,
}

/// What a gateway is set to.
pub struct Settings {
    /// How the report is written.
    pub report: ReportForm,
    /// Whether fragments are joined, and else refused.
    pub join: bool,
    /// The blocks whose addresses mean the same host in both realms.
    pub same: Blocks,
    /// The left realm's pool and link.
    pub left: SideSettings,
    /// The right realm's pool and link.
    pub right: SideSettings,
    /// The static bindings.
    pub statics: Statics,
    /// Where object identifiers of SNMP messages hold addresses.
    pub oids: OidRules,
}

// By a call of its own, since a drop that is written out wherever it happens is slow to prove.
impl Drop for Settings {
    fn drop(self) {
        let Self {
            report,
            join,
            same,
            left,
            right,
            statics,
            oids,
        } = self;
    }
}

impl Settings {
    /// A realm's pool and link.
    pub fn side(&self, side: Side) -> &SideSettings
        ensures { result.now ≡ cross.side_settings self.now side }
    {
        match side {
            Side::Left => &self.left,
            Side::Right => &self.right,
        }
    }
}
