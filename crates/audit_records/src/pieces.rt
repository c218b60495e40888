// What a session sends for a segment, with the segment.
ghost use Rattle.std.specs.Prelude.{◌≡◌, ◌≤◌, ◌+◌, ◌-◌, length, IfOk};
ghost use Rattle.ipv4_frames.specs.Ipv4.{fields_of};
ghost use Rattle.tcp_segments.specs.Prelude.{IsTcpHeader};
ghost use Rattle.tcp_segments.specs.declared.TheConstants.{MOST_PAYLOAD};
ghost use Rattle.gate_model.specs.Prelude.{tcp_of, sent_as};
ghost use Rattle.audit_records.specs.Cutting.{told};

use audit_streams::Sent;
use gate_base::{Addr, OutOfMemory};
use ipv4_frames::IpView;
use std::alloc::Global;
use std::marker::Model;
use tcp_segments::{Flags, SegmentFields, TcpView, flags_octet, flags_of, put_segment};

/// What a session sends for a segment, whose octets may be cut into pieces (RFC 9293, 3.7.1). With it are the segment's datagram,
/// by which theirs are made, and its addresses in the other realm.
#[derive(Drop)]
pub struct Pieces {
    header: Vec<u8>,
    payload: Vec<u8>,
    tcp: Vec<u8>,
    source: Addr,
    destination: Addr,
    sent: Sent,
}

impl Model for Pieces {
    ghost use Rattle.ipv4_frames.specs.Ipv4.{fields_of};
    ghost use Rattle.audit_records.specs.Cutting.{Cutting, told};
    ghost use Rattle.audit_records.specs.Inside.Cutting.{IsFit};

    ghost Value = { Cutting };

    ghost view = { λ p. record { datagram = fields_of p.header.items p.payload.items; source = p.source.0; destination = p.destination.0; sent = told p.sent } };

    ghost invariant = { λ p. IsFit p.header.items p.payload.items p.tcp.items p.sent.limit };
}

impl Pieces {
    /// What a session sends for the segment of a datagram, between these addresses. Limit and options have at most 65,495 octets
    /// together. The error is that there is too little memory.
    pub fn of(
        alloc: Global,
        datagram: &IpView,
        segment: &TcpView,
        source: Addr,
        destination: Addr,
        sent: Sent,
    ) -> Result<Pieces, OutOfMemory>
        requires segment { segment.now ≡ tcp_of datagram.now }
        requires fits { sent.limit + (length segment.now.header - 20)
            ≤ MOST_PAYLOAD }
        ensures { IfOk result (λ p. p
            ≡ record {
              datagram = fields_of datagram.now.header datagram.now.payload;
              source = source.0;
              destination = destination.0;
              sent = told sent;
            }) }
    {
        let header = Vec::from_slice(alloc, datagram.header())?;
        let payload = Vec::from_slice(alloc, datagram.payload())?;
        let tcp = Vec::from_slice(alloc, segment.header())?;
        Ok(Pieces {
            header,
            payload,
            tcp,
            source,
            destination,
            sent,
        })
    }

    /// All octets that go out.
    pub(crate) fn octets(&self) -> &[u8]
        ensures { result.now ≡ self.now.sent.octets }
    {
        &self.sent.octets
    }

    /// The most octets of one piece.
    pub(crate) fn limit(&self) -> usize
        ensures { result ≡ self.now.sent.limit }
    {
        self.sent.limit
    }

    /// The number of the first octet.
    pub(crate) fn sequence(&self) -> u32
        ensures { result ≡ self.now.sent.sequence }
    {
        self.sent.sequence
    }

    /// The flags of the last piece.
    pub(crate) fn flags(&self) -> Flags
        ensures is { result ≡ self.now.sent.flags }
        ensures ecn { result.ecn ≤ 3 }
    {
        flags_of(self.sent.flags)
    }

    /// The header of the segment.
    pub(crate) fn tcp(&self) -> &[u8]
        ensures octets { result.now ≡ (tcp_of self.now.datagram).header }
        ensures right { IsTcpHeader result.now }
        ensures few { length result.now ≤ 60 }
        ensures fits { self.now.sent.limit + (length result.now - 20)
            ≤ MOST_PAYLOAD }
    {
        &self.tcp
    }

    /// Writes a segment with this number, these flags and octets, at most so many as the limit, as the datagram in which it goes out, into a
    /// target of just its length.
    pub(crate) fn put(&self, sequence: u32, flags: Flags, octets: &[u8], target: &mut [u8])
        requires ecn { flags.ecn ≤ 3 }
        requires few { length octets.now ≤ self.now.sent.limit }
        requires room { length target.old
            ≡ 20 + (length (tcp_of self.now.datagram).header + length octets.now) }
        ensures { let p = self.now in
            target.new
            ≡ sent_as p.datagram p.source p.destination (record {
              sequence = sequence;
              acknowledgement = p.sent.acknowledgement;
              flags = flags;
              octets = octets.now;
            }) }
    {
        let fields = SegmentFields {
            source: self.source(),
            destination: self.destination(),
            lifetime: self.lifetime(),
            sequence,
            acknowledgement: self.acknowledgement(),
            flags: flags_octet(flags),
        };
        put_segment(target, self.ip(), self.tcp(), fields, octets);
    }

    // The header of the datagram.
    fn ip(&self) -> &[u8]
        ensures octets { result.now ≡ self.now.datagram.header }
        ensures count { length result.now ≡ 20 }
    {
        &self.header
    }

    fn source(&self) -> Addr
        ensures { result.0 ≡ self.now.source }
    {
        self.source
    }

    fn destination(&self) -> Addr
        ensures { result.0 ≡ self.now.destination }
    {
        self.destination
    }

    fn acknowledgement(&self) -> u32
        ensures { result ≡ self.now.sent.acknowledgement }
    {
        self.sent.acknowledgement
    }

    // The lifetime with which the datagrams go out.
    fn lifetime(&self) -> u8
        ensures { result ≡ self.now.datagram.lifetime - 1 }
    {
        self.header[8].saturating_sub(1)
    }
}
