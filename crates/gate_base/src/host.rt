ghost use Rattle.std.specs.Prelude.{◌≡◌};

/// One of the two hosts of a session.
#[derive(Clone, Copy)]
pub enum Host {
    /// The host that opens the session with the first SYN.
    Client,
    /// The host to which that SYN goes.
    Server,
}

impl Host {
    ghost use Rattle.gate_base.specs.Hosts.{peer};

    /// The other host.
    pub fn peer(self) -> Host
        ensures { result ≡ peer self }
    {
        match self {
            Host::Client => Host::Server,
            Host::Server => Host::Client,
        }
    }
}
