// Datagrams of which fragments are held.
ghost use Rattle.std.specs.Prelude.{◌≡◌};
ghost use Rattle.frag_join.specs.Fragments.{same_name};
ghost use Rattle.frag_join.specs.Joining as joining;

use gate_base::{Addr, Moment, SECOND, Side};

/// Nanoseconds from a datagram's first fragment to the moment at which its parts are dropped: 30 seconds.
pub const JOIN_TIMEOUT: u64 = 30 * SECOND;

/// What the fragments of one datagram have in common: the realm from which they come, and the fields of their headers
/// by which they belong together (RFC 791, 3.2).
#[derive(Clone, Copy, Debug, PartialEq, Eq)]
pub struct Name {
    pub side: Side,
    pub source: Addr,
    pub destination: Addr,
    pub protocol: u8,
    pub identification: u16,
}

/// A datagram of which fragments were taken, and what is kept of them.
#[derive(Drop)]
pub struct Part<K> {
    pub name: Name,
    /// The moment of the first fragment.
    pub since: Moment,
    pub kept: K,
}

impl Name {
    /// Whether the two are one name.
    pub fn is(&self, other: &Name) -> bool
        ensures { result ≡ same_name self.now other.now }
    {
        self.side == other.side
            && self.source.0 == other.source.0
            && self.destination.0 == other.destination.0
            && self.protocol == other.protocol
            && self.identification == other.identification
    }
}

impl<K> Part<K> {
    /// Whether the first fragment came less than 30 seconds ago.
    pub fn is_live(&self, now: Moment) -> bool
        ensures { result ≡ joining.is_live now.0 self.now }
    {
        now.0.saturating_sub(self.since.0) < JOIN_TIMEOUT
    }
}
