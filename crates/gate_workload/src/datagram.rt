// Datagrams with identification 0, DF, lifetime 64 and right sums.
ghost use Rattle.std.specs.Prelude.{◌≡◌, ◌+◌, ◌*◌, ◌^◌, ◌<◌, ◌≤◌, [], ◌∷◌, ◌++◌, length, take, OnOk, IfOk};
ghost use Rattle.gate_base.specs.Prelude.{u16_at};
ghost use Rattle.gate_base.specs.declared.protocol.TheConstants.{LONGEST_DATAGRAM};
ghost use Rattle.ipv4_frames.specs.Ipv4.{spelled_head};
ghost use Rattle.udp_icmp.specs.Udp.{udp_sum_of, sealed_udp};
ghost use Rattle.gate_workload.specs.Captures.{record_head, record_of};
ghost use Rattle.gate_workload.specs.Datagrams.{ip_model, udp_header, udp_datagram, tcp_model, tcp_datagram, AreShortOptions, ReadsBack};

use crate::capture::{RECORD_HEAD, record_head};
use crate::flow::Flow;
use gate_base::{OutOfMemory, TCP, UDP, put_u16};
use inet_sum::pseudo_sum;
use ipv4_frames::put_head;
use tcp_segments::{SegmentFields, put_segment};

/// The octets of an IPv4 header and of a UDP header.
const IP_HEAD: usize = 20;

const UDP_HEAD: usize = 8;

/// The octets of a TCP header without options, and the most that options have here.
const TCP_HEAD: usize = 20;

const MOST_OPTIONS: usize = 4;

/// What stands in the place of a UDP checksum that is still to come.
const UNKNOWN_SUM: u16 = 0xffff;

const LIFETIME: u8 = 64;

/// An IPv4 header whose lengths, lifetime, addresses and checksum are still to come.
fn ip_model(protocol: u8) -> [u8; 20]
    ensures { result ≡ ip_model protocol }
{
    [
        0x45, 0, 0, 0, 0, 0, 0x40, 0, 0, protocol, 0, 0, 0, 0, 0, 0, 0, 0, 0, 0,
    ]
}

/// Writes an IPv4 header, which fills its target, for a datagram of this total length.
fn put_ip_head(head: &mut [u8], protocol: u8, total: u16, flow: &Flow)
    requires { length head.old ≡ 20 }
    ensures { head.new
        ≡ spelled_head (ip_model protocol) total 64 flow.now.source.0
        flow.now.destination.0 }
{
    put_head(
        head,
        &ip_model(protocol),
        total,
        LIFETIME,
        flow.source,
        flow.destination,
    );
}

/// Writes a UDP header whose checksum is still to come, and the payload behind it.
fn put_udp_parts(segment: &mut [u8], flow: &Flow, payload: &[u8])
    requires room { length segment.old ≡ 8 + length payload.now }
    requires short { length segment.old ≤ LONGEST_DATAGRAM }
    ensures { segment.new
        ≡ udp_header flow.now (8 + length payload.now) ++ payload.now }
{
    let len = segment.len() as u16;
    let (head, rest) = segment.split_at_mut(UDP_HEAD);
    put_u16(head, 0, flow.source_port);
    put_u16(head, 2, flow.destination_port);
    put_u16(head, 4, len);
    put_u16(head, 6, UNKNOWN_SUM);
    rest.copy_from_slice(payload);
}

/// Makes the checksum of a UDP datagram right, which holds `UNKNOWN_SUM` so far.
#[tactic(auto, unfolding(udp_icmp::specs::Udp::sealed_udp))]
fn put_udp_sum(segment: &mut [u8], flow: &Flow)
    requires long { 8 ≤ length segment.old }
    requires short { length segment.old ≤ LONGEST_DATAGRAM }
    requires unknown { u16_at 6 segment.old ≡ 65535 }
    ensures { segment.new
        ≡ sealed_udp flow.now.source.0 flow.now.destination.0 segment.old }
{
    put_u16(segment, 6, 0);
    let checksum = pseudo_sum(flow.source, flow.destination, UDP, segment);
    put_u16(segment, 6, written(checksum));
}

// A checksum as UDP writes it: 0 says that there is none (RFC 768).
fn written(checksum: u16) -> u16
    ensures { result ≡ udp_sum_of checksum }
{
    if checksum == 0 { 65_535 } else { checksum }
}

/// What a TCP segment has: where it goes, its options, its numbers, its flags and its octets.
#[derive(Clone, Copy)]
pub(crate) struct Segment<'a> {
    pub flow: Flow,
    pub options: &'a [u8],
    pub sequence: u32,
    pub acknowledgement: u32,
    pub flags: u8,
    pub octets: &'a [u8],
}

/// Appends the record of a frame that is a UDP datagram.
#[tactic(auto, unfolding(crate::specs::Captures::record_of))]
pub(crate) fn append_udp(
    capture: &mut Vec<u8>,
    frame: u64,
    flow: &Flow,
    payload: &[u8],
) -> Result<(), OutOfMemory>
    requires early { frame < 2 ^ 40 }
    requires short { length payload.now ≤ 1000 }
    ensures { OnOk result (capture.new.items
        ≡ capture.old.items ++ record_of frame (udp_datagram flow.now payload.now)) }
{
    let len = IP_HEAD + UDP_HEAD + payload.len();
    let start = begin_record(capture, frame, len)?;
    put_udp(&mut capture[start..], flow, payload);
    Ok(())
}

/// Appends the record of a frame that is a TCP datagram.
#[tactic(auto, unfolding(crate::specs::Captures::record_of))]
pub(crate) fn append_segment(
    capture: &mut Vec<u8>,
    frame: u64,
    segment: &Segment<'_>,
) -> Result<(), OutOfMemory>
    requires early { frame < 2 ^ 40 }
    requires options { AreShortOptions segment.now.options.now }
    requires short { length segment.now.octets.now ≤ 1000 }
    ensures { let s = segment.now in
        OnOk result (capture.new.items
        ≡ capture.old.items
        ++ record_of frame (tcp_datagram s.flow s.options.now s.sequence
        s.acknowledgement s.flags s.octets.now)) }
{
    let len = IP_HEAD + TCP_HEAD + segment.options.len() + segment.octets.len();
    let start = begin_record(capture, frame, len)?;
    put_tcp(&mut capture[start..], segment);
    Ok(())
}

/// Appends the head of a frame's record and room for its octets, and answers where these begin.
fn begin_record(capture: &mut Vec<u8>, frame: u64, len: usize) -> Result<usize, OutOfMemory>
    requires early { frame < 2 ^ 40 }
    requires short { len ≤ LONGEST_DATAGRAM }
    ensures place { IfOk result (λ start. start ≡ length capture.old.items + 16) }
    ensures room { IfOk result (λ start. length capture.new.items ≡ start + len) }
    ensures head { IfOk result (λ start. take start capture.new.items
        ≡ capture.old.items ++ record_head frame len) }
{
    capture.reserve(RECORD_HEAD + len)?;
    capture.extend_from_slice(&record_head(frame, len as u32))?;
    let start = capture.len();
    capture.resize(start + len, 0)?;
    Ok(start)
}

/// Writes a TCP header with these options, which fills its target.
fn put_tcp_model(model: &mut [u8], flow: &Flow, options: &[u8])
    requires room { length model.old ≡ 20 + length options.now }
    requires short { length options.now ≤ 4 }
    ensures { model.new ≡ tcp_model flow.now options.now }
{
    let (fixed, rest) = model.split_at_mut(TCP_HEAD);
    fixed.copy_from_slice(&[
        0, 0, 0, 0, 0, 0, 0, 0, 0, 0, 0, 0, 0x50, 0, 0x20, 0, 0, 0, 0, 0,
    ]);
    put_u16(fixed, 0, flow.source_port);
    put_u16(fixed, 2, flow.destination_port);
    fixed[12] = (5 + options.len() as u8 / 4) * 16;
    rest.copy_from_slice(options);
}

/// Writes a whole TCP datagram into a target of just its length.
#[tactic(auto, unfolding(crate::specs::Datagrams::tcp_datagram))]
fn put_tcp(target: &mut [u8], segment: &Segment<'_>)
    requires options { AreShortOptions segment.now.options.now }
    requires room { length target.old
        ≡ 40 + (length segment.now.options.now + length segment.now.octets.now) }
    requires short { length target.old ≤ LONGEST_DATAGRAM }
    ensures { let s = segment.now in
        target.new
        ≡ tcp_datagram s.flow s.options.now s.sequence s.acknowledgement s.flags
        s.octets.now }
{
    let mut model = [0; TCP_HEAD + MOST_OPTIONS];
    let model = &mut model[..TCP_HEAD + segment.options.len()];
    put_tcp_model(model, &segment.flow, segment.options);
    let fields = SegmentFields {
        source: segment.flow.source,
        destination: segment.flow.destination,
        lifetime: LIFETIME,
        sequence: segment.sequence,
        acknowledgement: segment.acknowledgement,
        flags: segment.flags,
    };
    put_segment(target, &ip_model(TCP), model, fields, segment.octets);
}

/// Writes a whole UDP datagram into a target of just its length.
#[tactic(auto, unfolding(crate::specs::Datagrams::udp_datagram))]
fn put_udp(target: &mut [u8], flow: &Flow, payload: &[u8])
    requires room { length target.old ≡ 28 + length payload.now }
    requires short { length target.old ≤ LONGEST_DATAGRAM }
    ensures { target.new ≡ udp_datagram flow.now payload.now }
{
    let total = target.len() as u16;
    let (head, segment) = target.split_at_mut(IP_HEAD);
    put_ip_head(head, UDP, total, flow);
    put_udp_parts(segment, flow, payload);
    put_udp_sum(segment, flow);
}

/// A UDP datagram of the workload reads back with its addresses, ports and payload, and both its checksums are right.
pub fn udp_reads_back(
    source: u32,
    source_port: u16,
    destination: u32,
    destination_port: u16,
    payload: &[u8],
)
    requires { length payload.now ≤ 1000 }
    ensures { ReadsBack
        (record {
          source = record { 0 = source };
          source_port = source_port;
          destination = record { 0 = destination };
          destination_port = destination_port;
        }) payload.now }
{}
