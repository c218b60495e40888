// The host of a session that sends a segment.
ghost use Rattle.std.specs.Prelude.{◌≡◌, ◌≤◌, length};
ghost use Rattle.dialogue.specs.Prelude.{is_listed, listed_image};
ghost use Rattle.dialogue.specs.declared.TheConstants.{MOST_ENTRIES};

use crate::session::Session;
use gate_base::{Addr, Host};

/// The host that sends a segment, in its session. Its list has the addresses that its units named before, and what each is called.
pub struct Sender<'a, S> {
    pub session: &'a S,
    pub host: Host,
}

impl<S> Drop for Sender<'_, S> {
    fn drop(self) {
        let Self { session, host } = self;
    }
}

impl<S: Session> Sender<'_, S> {
    /// How many entries its list has.
    pub(crate) fn listed(&self) -> usize
        ensures count { result
            ≡ length (S.rules.listed self.now.host self.now.session.now) }
        ensures few { result ≤ MOST_ENTRIES }
    {
        self.session.listed(self.host)
    }

    /// The image of an address by its list, if that has an entry of it.
    pub(crate) fn image_of(&self, address: Addr) -> Option<Option<Addr>>
        ensures { result
            ≡ listed_image (S.rules.listed self.now.host self.now.session.now)
            address.0 }
    {
        self.session.image_of(self.host, address)
    }

    /// Whether its list has an entry of an address.
    pub(crate) fn knows(&self, address: Addr) -> bool
        ensures { result
            ≡ is_listed (S.rules.listed self.now.host self.now.session.now)
            address.0 }
    {
        self.image_of(address).is_some()
    }
}
