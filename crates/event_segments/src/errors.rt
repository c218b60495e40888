// ICMP errors: the datagram inside, which came from the other realm and goes back.
ghost use Rattle.std.specs.Prelude.{◌≡◌, ◌≤◌, ◌==◌, true, false, [], drop, length};
ghost use Rattle.gate_base.specs.Prelude.{IsMoment};
ghost use Rattle.gate_base.specs.declared.protocol.TheConstants.{LONGEST_DATAGRAM, UDP};
ghost use Rattle.binding_table.specs.Prelude.{is_settled};
ghost use Rattle.twice_translate.specs.Renamed.{CanGoOn, datagram_of};
ghost use Rattle.gate_model.specs.Frame as kinds;
ghost use Rattle.gate_model.specs.Prelude.{inner_number, is_unknown, World, called};
ghost use Rattle.event_payloads.specs.Prelude.{IsWay, IsTaken, IsWayOf};

use binding_table::Table;
use dns_plans::{Session, Tracked};
use event_outbox::{Datagrams, put_error};
use event_payloads::{Way, key_of, lacks_alias};
use gate_base::{Addr, Side, TCP};
use gate_model::ICMP_TIMEOUT;
use icmp_errors::{Inner, inner_of};
use tcp_tracker::SessionTable;
use verdicts::Refusal;

/// The number that the sender of the datagram inside gave it, where a session tells; None inside that where the session sent
/// no such number.
fn inner_number<S: Session>(
    connections: &SessionTable<Tracked<S>>,
    side: Side,
    inner: &Inner,
    source: Addr,
) -> Option<Option<u32>>
    ensures { (live : World S)
        → live.connections ≡ connections.now
        → called live.table side inner.now.source ≡ source
        → result ≡ inner_number S.rules live side inner.now }
{
    if inner.protocol != TCP {
        return None;
    }
    let (far_port, own_port) = inner.ports;
    let key = key_of(side, inner.destination, own_port, source, far_port);
    let tracked = connections.session(&key)?;
    Some(
        tracked
            .session
            .inner(tracked.host_on(side.other()), inner.sequence),
    )
}

/// A session tells nothing of the datagram inside.
fn is_unknown(number: Option<Option<u32>>) -> bool
    ensures { result ≡ is_unknown number }
{
    matches!(number, Some(None))
}

/// Takes an ICMP error.
#[inline(never)]
pub fn take_error<S: Session>(
    table: &mut Table,
    connections: &SessionTable<Tracked<S>>,
    way: &Way,
    octets: &[u8],
    inside: &[u8],
    outbox: &mut Datagrams,
) -> Option<Refusal>
    requires way { IsWay table.old way.now }
    requires settled { is_settled way.now.of_destination ≡ true }
    requires moment { IsMoment way.now.moment.0 }
    requires empty { outbox.old ≡ [] }
    requires few { length octets.now ≤ LONGEST_DATAGRAM }
    requires can { CanGoOn octets.now }
    requires inside { inside.now ≡ drop 8 (datagram_of octets.now).payload }
    requires protocol { ((datagram_of octets.now).protocol == UDP) ≡ false }
    requires stream { ((datagram_of octets.now).protocol == TCP) ≡ false }
    ensures taken { (live : World S)
        → live.table ≡ table.old
        → live.connections ≡ connections.now
        → IsWayOf live way.now.side (datagram_of octets.now) way.now
        → IsTaken S.rules live way.now.side (datagram_of octets.now) (kinds.Whole kinds.Error)
        result table.new outbox.new }
{
    let Ok(inner) = inner_of(inside) else {
        return Some(Refusal::BadInner);
    };
    let Some(source) = table.seen(way.side, inner.source) else {
        return Some(Refusal::InnerUnbound);
    };
    let Some(destination) = table.seen(way.side, inner.destination) else {
        return Some(Refusal::InnerUnbound);
    };
    let number = inner_number(connections, way.side, &inner, source);
    if is_unknown(number) {
        return Some(Refusal::InnerUnbound);
    }
    if lacks_alias(way) {
        return Some(Refusal::PoolEmpty);
    }
    way.use_both(table, ICMP_TIMEOUT);
    put_error(
        outbox,
        octets,
        way.source_image(),
        way.destination_image(),
        source,
        destination,
        number.flatten(),
    );
    None
}
