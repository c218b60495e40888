// Segments that no session takes, and the room for connections.
ghost use Rattle.std.specs.Prelude.{◌≡◌, ◌≤◌, ◌||◌, ◌&&◌, nat_le, [], ◌∷◌, length, true, false, None, is_none, count_by};
ghost use Rattle.gate_base.specs.Prelude.{IsMoment, IsTimeout};
ghost use Rattle.verdicts.specs.Prelude.{first_that_holds, unless_refused};
ghost use Rattle.gate_base.specs.declared.protocol.TheConstants.{LONGEST_DATAGRAM};
ghost use Rattle.binding_table.specs.Prelude.{is_settled, after_uses};
ghost use Rattle.twice_translate.specs.Renamed.{CanGoOn, datagram_of, renamed};
ghost use Rattle.tcp_segments.specs.Prelude.{flags_of};
ghost use Rattle.tcp_tracker.specs.Prelude.{connection_of, timeout_of, noted, is_tracked};
ghost use Rattle.gate_model.specs.Prelude.{uses_until};
ghost use Rattle.event_payloads.specs.Prelude.{IsWay, image_by, is_empty, header_uses};
ghost use Rattle.event_segments.specs.Segments.{room_tests, lacks_place};

use binding_table::Table;
use event_outbox::{Datagrams, Segment};
use event_payloads::{Way, lacks_alias, pass_plain};
use tcp_segments::flags_of;
use tcp_tracker::{ConnKey, MOST_CONNECTIONS, MOST_SESSIONS, SHORT_TIMEOUT, SessionTable};
use verdicts::Refusal;

/// Takes a segment that no session takes.
#[inline(always)]
pub fn take_untracked<X>(
    table: &mut Table,
    connections: &mut SessionTable<X>,
    way: &Way,
    key: &ConnKey,
    segment: &Segment<'_>,
    outbox: &mut Datagrams,
) -> Option<Refusal>
    requires way { IsWay table.old way.now }
    requires settled { is_settled way.now.of_destination ≡ true }
    requires moment { IsMoment way.now.moment.0 }
    requires empty { outbox.old ≡ [] }
    requires few { length segment.now.octets.now ≤ LONGEST_DATAGRAM }
    requires can { CanGoOn segment.now.octets.now }
    ensures refusal { result
        ≡ first_that_holds (room_tests
        (lacks_place connections.old (connection_of key.now connections.old)
        segment.now.tcp.now.flags) (is_empty way.now.of_source)) }
    ensures table { table.new
        ≡ unless_refused result
        (after_uses table.old (header_uses way.now (timeout_of connections.old
        key.now way.now.side segment.now.tcp.now.flags))) table.old }
    ensures connections { connections.new
        ≡ unless_refused result
        (noted connections.old key.now way.now.side segment.now.tcp.now.flags None
        way.now.moment) connections.old }
    ensures out { outbox.new
        ≡ unless_refused result
        (renamed (datagram_of segment.now.octets.now)
        (image_by way.now.of_source way.now.source).0
        (image_by way.now.of_destination way.now.destination).0 ∷ []) [] }
{
    let flags = segment.tcp.flags();
    if lacks_place(connections, key, flags) {
        return Some(Refusal::SessionsFull);
    }
    if lacks_alias(way) {
        return Some(Refusal::PoolEmpty);
    }
    let timeout = note_untracked(connections, way, key, flags);
    pass_plain(table, way, timeout, segment.octets, outbox);
    None
}

/// A segment passed that no session takes. An RST makes no connection. The answer is the timeout of the addresses.
#[inline(always)]
fn note_untracked<X>(connections: &mut SessionTable<X>, way: &Way, key: &ConnKey, flags: u8) -> u64
    requires place { lacks_place connections.old
        (connection_of key.now connections.old) flags ≡ false }
    requires moment { IsMoment way.now.moment.0 }
    ensures noted { connections.new
        ≡ noted connections.old key.now way.now.side flags None way.now.moment }
    ensures timeout { result ≡ timeout_of connections.old key.now way.now.side flags }
    ensures small { IsTimeout result }
{
    if is_stray_reset(connections, key, flags) {
        return SHORT_TIMEOUT;
    }
    connections.note(*key, way.side, flags, way.moment)
}

/// An RST of a connection that doesn't live.
fn is_stray_reset<X>(connections: &SessionTable<X>, key: &ConnKey, flags: u8) -> bool
    ensures { result
        ≡ (is_none (connection_of key.now connections.now)
        && (flags_of flags).reset) }
{
    flags_of(flags).reset && !connections.contains(key)
}

/// A segment that no session takes would make a connection, and the most of them live.
fn lacks_place<X>(connections: &SessionTable<X>, key: &ConnKey, flags: u8) -> bool
    ensures { result
        ≡ lacks_place connections.now (connection_of key.now connections.now) flags }
{
    MOST_CONNECTIONS <= connections.len() && !flags_of(flags).reset && !connections.contains(key)
}

/// The most connections live, or the most sessions.
pub fn is_full<X>(connections: &SessionTable<X>) -> bool
    ensures { result
        ≡ (nat_le MOST_CONNECTIONS (length connections.now)
        || nat_le MOST_SESSIONS (count_by is_tracked connections.now)) }
{
    MOST_CONNECTIONS <= connections.len() || MOST_SESSIONS <= connections.sessions()
}

/// The timeout of a segment's addresses, which is that of its connection.
pub fn timeout_of<X>(connections: &SessionTable<X>, way: &Way, key: &ConnKey, flags: u8) -> u64
    ensures is { result ≡ timeout_of connections.now key.now way.now.side flags }
    ensures small { IsTimeout result }
{
    connections.timeout_of(key, way.side, flags)
}
