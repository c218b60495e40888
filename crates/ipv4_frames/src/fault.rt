/// Why octets are no IPv4 datagram that is translated, in the order of testing.
#[derive(Clone, Copy, Debug, PartialEq, Eq)]
pub enum IpFault {
    /// There are no octets, or the version isn't 4.
    NotIpv4,
    /// The header's lengths contradict each other or the octets.
    BadHeader,
    /// The header's checksum is wrong.
    BadHeaderSum,
    /// It is a fragment.
    Fragment,
    /// The header has options.
    IpOptions,
}

/// Why a datagram's payload is no ICMP message, TCP segment or UDP datagram, in the order of testing.
#[derive(Clone, Copy, Debug, PartialEq, Eq)]
pub enum TransportFault {
    /// The lengths contradict each other or the payload.
    BadTransport,
    /// The checksum is wrong.
    BadSum,
}
