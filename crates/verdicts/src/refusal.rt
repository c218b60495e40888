ghost use Rattle.std.specs.Prelude.{◌≡◌};

/// Why a frame goes nowhere, in the order of testing.
#[derive(Clone, Copy, Debug, PartialEq, Eq)]
pub enum Refusal {
    /// The capture kept fewer octets than the frame had.
    Snapped,
    /// It is no IPv4 datagram.
    NotIpv4,
    /// The IPv4 header's lengths contradict each other or the frame (RFC 791, 3.1).
    BadHeader,
    /// The IPv4 header's checksum is wrong.
    BadHeaderSum,
    /// It is a fragment.
    Fragment,
    /// The IPv4 header has options.
    IpOptions,
    /// A fragment that contradicts itself or those held of its datagram, while fragments are joined (RFC 791, 3.2).
    BadFragment,
    /// A fragment of another datagram, while as many are being joined as may be.
    FragmentsFull,
    /// The lifetime is 0 or 1.
    TtlSpent,
    /// Source or destination is no host's address.
    NotUnicast,
    /// The protocol is none of ICMP, TCP and UDP, or the ICMP type is none of those that are translated.
    Protocol,
    /// The ICMP, TCP or UDP header contradicts itself or the datagram's length.
    BadTransport,
    /// The ICMP, TCP or UDP checksum is wrong.
    BadSum,
    /// The source lies in the pool of its own realm.
    SourceInPool,
    /// The destination stands for no host of the other realm.
    NoBinding,
    /// The datagram inside an ICMP error can't be read.
    BadInner,
    /// An address or number inside an ICMP error has no image.
    InnerUnbound,
    /// The payload of a DNS port is no DNS message (RFC 1035).
    BadDns,
    /// An address in a DNS message lies in the pool and stands for no host.
    DnsUnbound,
    /// The payload of an SNMP port is no SNMP message (RFC 1157, 3416).
    BadSnmp,
    /// A TCP segment of FTP's control port or of DNS whose connection isn't known.
    NoSession,
    /// A SYN that begins a session, with octets, FIN or RST.
    SynData,
    /// A SYN inside a session.
    SynInSession,
    /// A segment of a session with neither SYN, RST nor ACK.
    NoAck,
    /// Octets before this segment of a session are missing.
    Gap,
    /// Octets past the end of a session's stream.
    PastEnd,
    /// An acknowledgement of octets that were never sent.
    AckAhead,
    /// Octets of a session repeated otherwise than they came first.
    Unlike,
    /// The stream of a session is too long.
    StreamLimit,
    /// Too many octets of a session's stream aren't acknowledged.
    Backlog,
    /// What a DNS session completes is longer than 8,192 octets, or no DNS message (RFC 1035, RFC 7766).
    BadUnit,
    /// An address in a DNS session's message isn't listed, lies in the pool and stands for no host.
    UnitUnbound,
    /// More than 256 addresses would be listed in one direction of a DNS session.
    RenamesFull,
    /// No room for another connection or session.
    SessionsFull,
    /// The other realm's pool has too few free addresses.
    PoolEmpty,
    /// A DNS session's message would be more than one and a half times as long, with the addresses in it renamed.
    UnitGrows,
    /// The SNMP message would be longer than a datagram holds, with the addresses in it renamed.
    SnmpTooLong,
}

impl Refusal {
    ghost use Rattle.verdicts.specs.Refusal.{name_of};

    /// The refusal's name, as a report prints it.
    #[tactic(auto, unfolding(crate::specs::Refusal::name_of))]
    pub fn name(&self) -> &'static str
        ensures { result.now ≡ name_of self.now }
    {
        match self {
            Refusal::Snapped => "Snapped",
            Refusal::NotIpv4 => "NotIpv4",
            Refusal::BadHeader => "BadHeader",
            Refusal::BadHeaderSum => "BadHeaderSum",
            Refusal::Fragment => "Fragment",
            Refusal::IpOptions => "IpOptions",
            Refusal::BadFragment => "BadFragment",
            Refusal::FragmentsFull => "FragmentsFull",
            Refusal::TtlSpent => "TtlSpent",
            Refusal::NotUnicast => "NotUnicast",
            Refusal::Protocol => "Protocol",
            Refusal::BadTransport => "BadTransport",
            Refusal::BadSum => "BadSum",
            Refusal::SourceInPool => "SourceInPool",
            Refusal::NoBinding => "NoBinding",
            Refusal::BadInner => "BadInner",
            Refusal::InnerUnbound => "InnerUnbound",
            Refusal::BadDns => "BadDns",
            Refusal::DnsUnbound => "DnsUnbound",
            Refusal::BadSnmp => "BadSnmp",
            Refusal::NoSession => "NoSession",
            Refusal::SynData => "SynData",
            Refusal::SynInSession => "SynInSession",
            Refusal::NoAck => "NoAck",
            Refusal::Gap => "Gap",
            Refusal::PastEnd => "PastEnd",
            Refusal::AckAhead => "AckAhead",
            Refusal::Unlike => "Unlike",
            Refusal::StreamLimit => "StreamLimit",
            Refusal::Backlog => "Backlog",
            Refusal::BadUnit => "BadUnit",
            Refusal::UnitUnbound => "UnitUnbound",
            Refusal::RenamesFull => "RenamesFull",
            Refusal::SessionsFull => "SessionsFull",
            Refusal::PoolEmpty => "PoolEmpty",
            Refusal::UnitGrows => "UnitGrows",
            Refusal::SnmpTooLong => "SnmpTooLong",
        }
    }
}
