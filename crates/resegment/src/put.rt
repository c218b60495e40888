// Pieces as datagrams.
ghost use Rattle.std.specs.Prelude.{◌≡◌, ◌≤◌, ◌<◌, ◌+◌, ◌-◌, ◌*◌, ◌^◌, ℕ, List, [], ◌∷◌, ◌++◌, length, vec_capacity};
ghost use Rattle.std.specs.List.{flat_map};
ghost use Rattle.gate_base.specs.declared.protocol.TheConstants.{LONGEST_DATAGRAM};
ghost use Rattle.tcp_segments.specs.Prelude.{flags_octet, IsTcpHeader, spelled_segment, datagram_of};
ghost use Rattle.tcp_segments.specs.declared.TheConstants.{MOST_PAYLOAD};
ghost use Rattle.resegment.specs.Pieces.{piece_count};
ghost use Rattle.resegment.specs.Datagrams.{datagrams, ends_from, room_for, piece_flags};

use crate::cut::{piece, pieces};
use gate_base::Addr;
use tcp_segments::{Flags, SegmentFields, finish_segment, flags_octet};

/// What all pieces of one segment have from their models: an IPv4 header of 20 octets, a TCP header, and the new fields.
#[derive(Clone, Copy)]
pub struct SegmentModel<'a> {
    pub ip: &'a [u8],
    pub tcp: &'a [u8],
    pub source: Addr,
    pub destination: Addr,
    pub lifetime: u8,
    /// The number of the first piece's first octet.
    pub sequence: u32,
    pub acknowledgement: u32,
    pub flags: Flags,
}

/// Appends each piece of the octets as a whole datagram, and its end in the outbox to `ends`. FIN and PSH stand on the last
/// piece alone. No octets make one datagram without octets.
///
/// The limit is at least 1, and with the TCP header's options at most 65,495 octets, which is what a datagram holds. Both
/// lists have room for all of it, so no memory is taken.
pub(crate) fn append_pieces(
    outbox: &mut Vec<u8>,
    ends: &mut Vec<u32>,
    model: &SegmentModel,
    octets: &[u8],
    limit: usize,
)
    requires some { 1 ≤ limit }
    requires fits { limit + (length model.now.tcp.now - 20) ≤ MOST_PAYLOAD }
    requires ip { length model.now.ip.now ≡ 20 }
    requires tcp { IsTcpHeader model.now.tcp.now }
    requires ecn { model.now.flags.ecn ≤ 3 }
    requires room { length outbox.old.items
        + room_for model.now (length octets.now) limit ≤ vec_capacity outbox.old }
    requires below { length outbox.old.items
        + room_for model.now (length octets.now) limit < 2 ^ 32 }
    requires ends { length ends.old.items + piece_count (length octets.now) limit
        ≤ vec_capacity ends.old }
    ensures octets { outbox.new.items
        ≡ outbox.old.items
        ++ flat_map (λ datagram. datagram)
        (datagrams model.now octets.now limit) }
    ensures ends { ends.new.items
        ≡ ends.old.items
        ++ ends_from (length outbox.old.items)
        (datagrams model.now octets.now limit) }
    ensures count { length ends.new.items
        ≡ length ends.old.items + piece_count (length octets.now) limit }
    ensures few { length outbox.new.items
        ≤ length outbox.old.items + room_for model.now (length octets.now) limit }
    ensures room { vec_capacity outbox.old ≤ vec_capacity outbox.new }
    ensures more { vec_capacity ends.old ≤ vec_capacity ends.new }
{
    let count = pieces(octets.len(), limit);
    for index in 0..count {
        let (start, end) = piece(octets.len(), limit, index);
        let flags = piece_flags(model.flags, index + 1 < count);
        let sequence = model.sequence.wrapping_add(start as u32);
        put_datagram(outbox, model, sequence, flags, &octets[start..end]);
        ends.push_reserved(outbox.len() as u32);
    }
}

/// Appends one datagram without octets, and its end in the outbox to `ends`. It takes no memory, as both lists have room.
pub(crate) fn append_empty(outbox: &mut Vec<u8>, ends: &mut Vec<u32>, model: &SegmentModel)
    requires ip { length model.now.ip.now ≡ 20 }
    requires tcp { IsTcpHeader model.now.tcp.now }
    requires ecn { model.now.flags.ecn ≤ 3 }
    requires fits { 20 + length model.now.tcp.now ≤ LONGEST_DATAGRAM }
    requires room { length outbox.old.items + (20 + length model.now.tcp.now)
        ≤ vec_capacity outbox.old }
    requires below { length outbox.old.items + (20 + length model.now.tcp.now)
        < 2 ^ 32 }
    requires ends { length ends.old.items + 1 ≤ vec_capacity ends.old }
    ensures octets { let m = model.now in
        outbox.new.items
        ≡ outbox.old.items
        ++ datagram_of m.ip.now m.source.0 m.destination.0 m.lifetime
        (spelled_segment m.tcp.now m.source.0 m.destination.0 m.sequence
        m.acknowledgement (flags_octet m.flags) []) }
    ensures ends { ends.new.items ≡ ends.old.items ++ length outbox.new.items ∷ [] }
    ensures len { length outbox.new.items
        ≡ length outbox.old.items + (20 + length model.now.tcp.now) }
    ensures room { vec_capacity outbox.old ≤ vec_capacity outbox.new }
    ensures more { vec_capacity ends.old ≤ vec_capacity ends.new }
{
    put_datagram(outbox, model, model.sequence, model.flags, &[]);
    ends.push_reserved(outbox.len() as u32);
}

fn piece_flags(flags: Flags, more_follow: bool) -> Flags
    ensures { result ≡ piece_flags flags more_follow }
{
    Flags {
        fin: !more_follow && flags.fin,
        push: !more_follow && flags.push,
        ..flags
    }
}

fn put_datagram(
    outbox: &mut Vec<u8>,
    model: &SegmentModel,
    sequence: u32,
    flags: Flags,
    octets: &[u8],
)
    requires ip { length model.now.ip.now ≡ 20 }
    requires tcp { IsTcpHeader model.now.tcp.now }
    requires ecn { flags.ecn ≤ 3 }
    requires fits { 20 + (length model.now.tcp.now + length octets.now) ≤ LONGEST_DATAGRAM }
    requires room { length outbox.old.items
        + (20 + (length model.now.tcp.now + length octets.now))
        ≤ vec_capacity outbox.old }
    ensures octets { let m = model.now in
        let segment = spelled_segment m.tcp.now m.source.0 m.destination.0 sequence
        m.acknowledgement (flags_octet flags) octets.now in
        outbox.new.items
        ≡ outbox.old.items
        ++ datagram_of m.ip.now m.source.0 m.destination.0 m.lifetime segment }
    ensures len { length outbox.new.items
        ≡ length outbox.old.items
        + (20 + (length model.now.tcp.now + length octets.now)) }
    ensures room { vec_capacity outbox.old ≤ vec_capacity outbox.new }
{
    let start = outbox.len();
    append(outbox, model.ip);
    append(outbox, model.tcp);
    append(outbox, octets);
    let fields = SegmentFields {
        source: model.source,
        destination: model.destination,
        lifetime: model.lifetime,
        sequence,
        acknowledgement: model.acknowledgement,
        flags: flags_octet(flags),
    };
    finish_segment(&mut outbox[start..], model.ip, model.tcp.len(), fields);
}

fn append(list: &mut Vec<u8>, octets: &[u8])
    requires { length list.old.items + length octets.now ≤ vec_capacity list.old }
    ensures items { list.new.items ≡ list.old.items ++ octets.now }
    ensures room { vec_capacity list.old ≤ vec_capacity list.new }
{
    let _fits = list.extend_from_slice(octets);
}
