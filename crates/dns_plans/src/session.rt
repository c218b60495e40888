// Sessions that are tracked, whatever they keep.
ghost use Rattle.std.specs.Prelude.{◌≡◌, ◌≤◌, ◌<◌, length, slice_get, None, Some};
ghost use Rattle.dialogue.specs.Prelude.{listed_image};
ghost use Rattle.dialogue.specs.declared.TheConstants.{MOST_ENTRIES};
ghost use Rattle.stream_model.specs.Prelude.{segment_in};
ghost use Rattle.dns_plans.specs.Plans.{whole_units};
ghost use Rattle.gate_model.specs.Prelude.{SessionRules, host_on};

use crate::octets::UnitOctets;
use dns_stream::Entry;
use gate_base::{Addr, Host, Pair, Side};
use std::marker::Model;
use tcp_segments::TcpView;
use verdicts::Refusal;

/// A tracked session, whatever it keeps of what passed.
pub trait Session {
    /// The answers of such sessions.
    ghost rules: { SessionRules Self };

    /// Why a segment of a host is refused; None where it passes.
    fn refusal(&self, from: Host, segment: &TcpView<'_>) -> Option<Refusal>
        ensures { result ≡ rules.refusal from self.now (segment_in segment.now) };

    /// What the sequence number of a datagram that an ICMP error brings back was at the host that sent it.
    fn inner(&self, host: Host, sequence: u32) -> Option<u32>
        ensures { result ≡ rules.inner host self.now sequence };

    /// How many entries the list of a host has, at most `MOST_ENTRIES`: none in a session of FTP.
    fn listed(&self, host: Host) -> usize
        ensures count { result ≡ length (rules.listed host self.now) }
        ensures few { result ≤ MOST_ENTRIES };

    /// The address and its image at a place of that list; None for an address that is kept. The place must lie below `listed`.
    fn entry(&self, host: Host, place: usize) -> Entry
        requires { place < length (rules.listed host self.now) }
        ensures { slice_get (rules.listed host self.now) place ≡ Some result };

    /// What a host's list has of an address: `Some(image)` for an entry with an image, `Some(None)` for an address that is kept, and
    /// None without an entry.
    fn image_of(&self, host: Host, address: Addr) -> Option<Option<Addr>>
        ensures { result ≡ listed_image (rules.listed host self.now) address.0 };

    /// Puts the octets whose whole units a segment of a host completes: a held rest and what goes on behind it, in a session of DNS.
    /// The segment must pass.
    fn put_octets(&self, from: Host, segment: &TcpView<'_>, octets: &mut UnitOctets)
        requires passes { rules.refusal from self.now (segment_in segment.now)
            ≡ None }
        ensures { whole_units octets.new
            ≡ rules.units from self.now (segment_in segment.now) };
}

/// A session that is tracked: its client's realm, the pair of its hosts, and the session itself.
pub struct Tracked<S> {
    pub client: Side,
    pub pair: Pair,
    pub session: S,
}

// By a call of its own, since a drop that is written out wherever it happens is slow to prove.
impl<S: Drop> Drop for Tracked<S> {
    fn drop(self) {
        let Self {
            client,
            pair,
            session,
        } = self;
    }
}

impl<S> Model for Tracked<S> {
    ghost use Rattle.gate_model.specs.World as worlds;

    ghost Value = { worlds.Tracked S };

    ghost view = { λ t. record { client = t.client; pair = t.pair; session = t.session } };
}

impl<S> Tracked<S> {
    /// Which host of the session is of the realm.
    pub fn host_on(&self, side: Side) -> Host
        ensures { result ≡ host_on side self.now }
    {
        if self.client == side {
            Host::Client
        } else {
            Host::Server
        }
    }
}
