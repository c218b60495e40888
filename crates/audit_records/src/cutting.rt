// Whether a record is the next piece of what a session sends.
ghost use Rattle.std.specs.Prelude.{◌≡◌, ◌≤◌, ◌<◌, ◌+◌, ◌-◌, ◌^◌, ◌%◌, ◌&&◌, ◌||◌, ◌==◌, nat_lt, nat_le, true, false, if◌then◌else◌, length, take, drop};
ghost use Rattle.gate_base.specs.declared.protocol.TheConstants.{LONGEST_DATAGRAM};
ghost use Rattle.gate_model.specs.Prelude.{sent_as};
ghost use Rattle.lawful_files.specs.Progress as progress;
ghost use Rattle.audit_records.specs.Inside.Records.{holds};

use crate::came::{Came, is_both};
use crate::pieces::Pieces;
use tcp_segments::Flags;

/// Whether a record is right behind so many, which carried so many octets.
pub fn is_right_cut(
    came: &Came<'_>,
    pieces: &Pieces,
    count: u64,
    carried: u64,
    room: &mut [u8],
) -> bool
    requires carried { carried < 2 ^ 62 }
    requires room { LONGEST_DATAGRAM ≤ length room.old }
    ensures answer { let r = came.now in
        let p = pieces.now in
        result
        ≡ progress.is_right_cut r.settings r.side r.moment p.datagram p.source
        p.destination p.sent
        (record { count = count; carried = carried; right = true }) r.packet }
    ensures room { length room.new ≡ length room.old }
{
    if is_nothing(pieces) {
        return is_alone(came, pieces, count, room);
    }
    let size = size_of(came, pieces);
    is_next_piece(came, pieces, carried, size, room)
}

/// How many octets of those that are cut a record carries.
pub fn size_of(came: &Came<'_>, pieces: &Pieces) -> u64
    ensures is { result
        ≡ length came.now.packet.octets
        - progress.before_octets came.now.settings came.now.side
        pieces.now.datagram }
    ensures small { result < 2 ^ 63 }
{
    came.size_behind(20 + pieces.tcp().len())
}

/// Whether all octets came, or the one segment without octets.
pub fn has_all(pieces: &Pieces, count: u64, carried: u64) -> bool
    ensures { result
        ≡ (if length pieces.now.sent.octets == 0 then count == 1 else carried ==
        length pieces.now.sent.octets) }
{
    let all = pieces.octets().len();
    if all == 0 {
        return count == 1;
    }
    carried == all as u64
}

/// The session sends no octets.
fn is_nothing(pieces: &Pieces) -> bool
    ensures is { result ≡ (length pieces.now.sent.octets == 0) }
    ensures none { result ≡ true → length pieces.now.sent.octets ≡ 0 }
{
    pieces.octets().len() == 0
}

/// Whether a record is the one segment of a session that sends no octets.
fn is_alone(came: &Came<'_>, pieces: &Pieces, count: u64, room: &mut [u8]) -> bool
    requires none { length pieces.now.sent.octets ≡ 0 }
    requires room { LONGEST_DATAGRAM ≤ length room.old }
    ensures answer { let r = came.now in
        let p = pieces.now in
        result
        ≡ progress.is_alone r.settings r.side r.moment p.datagram p.source
        p.destination p.sent count r.packet }
    ensures room { length room.new ≡ length room.old }
{
    let same = is_segment(
        came,
        pieces,
        pieces.sequence(),
        pieces.flags(),
        pieces.octets(),
        room,
    );
    is_both(count == 0, same)
}

/// Whether a record carries the next octets, one at least and no more than the limit.
fn is_next_piece(came: &Came<'_>, pieces: &Pieces, carried: u64, size: u64, room: &mut [u8]) -> bool
    requires sum { carried + size < 2 ^ 64 }
    requires room { LONGEST_DATAGRAM ≤ length room.old }
    ensures answer { let r = came.now in
        let p = pieces.now in
        result
        ≡ progress.is_next_piece r.settings r.side r.moment p.datagram p.source
        p.destination p.sent carried r.packet size }
    ensures room { length room.new ≡ length room.old }
{
    if is_within(pieces, carried, size) {
        return either_piece(came, pieces, carried, size, room);
    }
    false
}

/// So many octets behind those that were carried may be a piece.
fn is_within(pieces: &Pieces, carried: u64, size: u64) -> bool
    requires { carried + size < 2 ^ 64 }
    ensures { result
        ≡ (nat_lt 0 size
        && (nat_le size pieces.now.sent.limit
        && nat_le (carried + size) (length pieces.now.sent.octets))) }
{
    let all = pieces.octets().len() as u64;
    is_both(
        0 < size,
        is_both(size <= pieces.limit() as u64, carried + size <= all),
    )
}

/// Whether a record is the piece of so many octets behind those that were carried, with PSH only where the segment has it.
fn either_piece(came: &Came<'_>, pieces: &Pieces, carried: u64, size: u64, room: &mut [u8]) -> bool
    requires few { size ≤ pieces.now.sent.limit }
    requires within { carried + size ≤ length pieces.now.sent.octets }
    requires room { LONGEST_DATAGRAM ≤ length room.old }
    ensures answer { let r = came.now in
        let p = pieces.now in
        result
        ≡ (progress.carries_piece r.settings r.side r.moment p.datagram p.source
        p.destination p.sent carried r.packet size false
        || (p.sent.flags.push
        && progress.carries_piece r.settings r.side r.moment p.datagram
        p.source p.destination p.sent carried r.packet size true)) }
    ensures room { length room.new ≡ length room.old }
{
    if is_piece(came, pieces, carried, size, false, room) {
        return true;
    }
    is_pushed(came, pieces, carried, size, room)
}

/// Whether the segment has PSH, and a record is that piece with it.
fn is_pushed(came: &Came<'_>, pieces: &Pieces, carried: u64, size: u64, room: &mut [u8]) -> bool
    requires few { size ≤ pieces.now.sent.limit }
    requires within { carried + size ≤ length pieces.now.sent.octets }
    requires room { LONGEST_DATAGRAM ≤ length room.old }
    ensures answer { let r = came.now in
        let p = pieces.now in
        result
        ≡ (p.sent.flags.push
        && progress.carries_piece r.settings r.side r.moment p.datagram p.source
        p.destination p.sent carried r.packet size true) }
    ensures room { length room.new ≡ length room.old }
{
    if pieces.flags().push {
        return is_piece(came, pieces, carried, size, true, room);
    }
    false
}

/// Whether a record is the piece of so many octets behind those that were carried, with PSH or without.
fn is_piece(
    came: &Came<'_>,
    pieces: &Pieces,
    carried: u64,
    size: u64,
    push: bool,
    room: &mut [u8],
) -> bool
    requires few { size ≤ pieces.now.sent.limit }
    requires within { carried + size ≤ length pieces.now.sent.octets }
    requires room { LONGEST_DATAGRAM ≤ length room.old }
    ensures answer { let r = came.now in
        let p = pieces.now in
        result
        ≡ progress.carries_piece r.settings r.side r.moment p.datagram p.source
        p.destination p.sent carried r.packet size push }
    ensures room { length room.new ≡ length room.old }
{
    let all = pieces.octets();
    let is_last = carried + size == all.len() as u64;
    is_segment(
        came,
        pieces,
        number_behind(pieces.sequence(), carried),
        flags_with(pieces.flags(), is_last, push),
        cut(all, carried, size),
        room,
    )
}

/// Whether a record is the segment with this number, these flags and octets, which is put together in the room.
fn is_segment(
    came: &Came<'_>,
    pieces: &Pieces,
    sequence: u32,
    flags: Flags,
    octets: &[u8],
    room: &mut [u8],
) -> bool
    requires ecn { flags.ecn ≤ 3 }
    requires few { length octets.now ≤ pieces.now.sent.limit }
    requires room { LONGEST_DATAGRAM ≤ length room.old }
    ensures answer { let p = pieces.now in
        result
        ≡ holds came.now (sent_as p.datagram p.source p.destination (record {
          sequence = sequence;
          acknowledgement = p.sent.acknowledgement;
          flags = flags;
          octets = octets.now;
        })) }
    ensures room { length room.new ≡ length room.old }
{
    let total = 20 + pieces.tcp().len() + octets.len();
    let target = &mut room[..total];
    pieces.put(sequence, flags, octets, target);
    came.holds(target)
}

/// The number of an octet so far behind the first.
fn number_behind(sequence: u32, carried: u64) -> u32
    ensures { result ≡ (sequence + carried) % 2 ^ 32 }
{
    sequence.wrapping_add((carried % 4_294_967_296) as u32)
}

/// The flags of a piece, with PSH or without, and with FIN where it is the last and the session ends.
fn flags_with(flags: Flags, is_last: bool, push: bool) -> Flags
    ensures is { result ≡ record flags { fin = is_last && flags.fin; push = push } }
    ensures ecn { result.ecn ≡ flags.ecn }
{
    Flags {
        fin: is_last && flags.fin,
        push,
        ..flags
    }
}

/// So many octets behind a place.
fn cut(all: &[u8], carried: u64, size: u64) -> &[u8]
    requires { carried + size ≤ length all.now }
    ensures { result.now ≡ take size (drop carried all.now) }
{
    let (_, rest) = all.split_at(carried as usize);
    let (octets, _) = rest.split_at(size as usize);
    octets
}
