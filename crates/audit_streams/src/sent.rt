// What a session sends.
use std::marker::Model;

/// What a session sends for a segment, before it is cut into datagrams: without octets it is one datagram. Contracts see its fields,
/// and its octets as a list.
#[derive(Drop)]
pub struct Sent {
    /// The sequence number of the first datagram.
    pub sequence: u32,
    /// The acknowledgement number of each datagram.
    pub acknowledgement: u32,
    /// The octet of flags of the last datagram.
    pub flags: u8,
    /// The most octets of one datagram.
    pub limit: usize,
    /// All octets.
    pub octets: Vec<u8>,
    /// Whether the session ends.
    pub ends: bool,
}

impl Model for Sent {
    ghost use Rattle.audit_streams.specs.Sending.{Handed};

    ghost Value = { Handed };

    ghost view = { λ sent. record { sequence = sent.sequence; acknowledgement = sent.acknowledgement; flags = sent.flags; limit = sent.limit; octets = sent.octets.items; ends = sent.ends } };
}
