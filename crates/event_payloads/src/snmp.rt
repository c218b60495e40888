// SNMP messages (RFC 2962).
ghost use Rattle.std.specs.Prelude.{◌≡◌, nat_lt, true, [], ◌∷◌, length, IsSome};
ghost use Rattle.gate_base.specs.Prelude.{IsMoment};
ghost use Rattle.verdicts.specs.Prelude.{first_that_holds, unless_refused};
ghost use Rattle.binding_table.specs.Prelude.{is_settled, after_uses};
ghost use Rattle.twice_translate.specs.Renamed.{datagram_of, rebuilt};
ghost use Rattle.verdicts.specs.declared.refusal.Refusal.TheVariants.{SnmpTooLong};
ghost use Rattle.gate_model.specs.Frame as kinds;
ghost use Rattle.gate_model.specs.Prelude.{number_seen, uses_until, World};
ghost use Rattle.gate_model.specs.declared.TheConstants.{MOST_CARRIED};
ghost use Rattle.snmp_gateway.specs.Message.{message};
ghost use Rattle.snmp_oids.specs.Elements.{oid_renamed};
ghost use Rattle.event_payloads.specs.Inside.Planned.{number_planned};
ghost use Rattle.event_payloads.specs.Ways.{IsWay, image_by, header_uses};
ghost use Rattle.event_payloads.specs.Plain.{PlainSession, plain_rules};
ghost use Rattle.event_payloads.specs.Taken.{IsTaken, IsUdpOf, IsWayOf};

use crate::addresses::{Way, lacks_alias};
use crate::udp::UdpDatagram;
use binding_table::Table;
use event_outbox::{Datagrams, Scratch, put_snmp, put_snmp_by_rules};
use gate_base::{Addr, Side};
use gate_model::UDP_TIMEOUT;
use snmp_gateway::{Lookup, check};
use verdicts::Refusal;

/// What addresses of a realm are called in the other.
#[derive(Drop)]
struct Seen<'a> {
    table: &'a Table,
    side: Side,
}

impl<'a> Lookup for Seen<'a> {
    ghost use Rattle.gate_model.specs.Prelude.{number_seen};

    ghost image_of = { λ it address. number_seen it.table.now it.side address };

    fn image(&self, address: Addr) -> Option<Addr> {
        self.table.seen(self.side, address)
    }
}

/// What addresses of the realm are called in the other, once both of a header are used.
#[derive(Drop)]
struct Planned<'a> {
    table: &'a Table,
    way: &'a Way,
}

impl<'a> Lookup for Planned<'a> {
    ghost use Rattle.event_payloads.specs.Inside.Planned.{number_planned};

    ghost image_of = { λ it address. number_planned it.table.now it.way.now address };

    fn image(&self, address: Addr) -> Option<Addr> {
        if address.0 == self.way.source.0 {
            Some(self.way.source_image())
        } else {
            self.table.seen(self.way.side, address)
        }
    }
}

/// The datagram passes where no rule names an address in an object identifier: its addresses are used, and the others in its
/// message are renamed in place.
fn pass_basic(table: &mut Table, way: &Way, datagram: &UdpDatagram<'_>, outbox: &mut Datagrams)
    requires way { IsWay table.old way.now }
    requires settled { is_settled way.now.of_destination ≡ true }
    requires moment { IsMoment way.now.moment.0 }
    requires empty { outbox.old ≡ [] }
    requires whole { IsUdpOf datagram.now.octets.now datagram.now.payload.now }
    requires message { IsSome (message datagram.now.payload.now) }
    ensures table { table.new
        ≡ after_uses table.old (header_uses way.now UDP_TIMEOUT) }
    ensures out { outbox.new
        ≡ rebuilt (datagram_of datagram.now.octets.now)
        (image_by way.now.of_source way.now.source).0
        (image_by way.now.of_destination way.now.destination).0 (oid_renamed
        (number_seen table.new way.now.side) [] datagram.now.payload.now)
        ∷ [] }
{
    way.use_both(table, UDP_TIMEOUT);
    let seen = Seen {
        table,
        side: way.side,
    };
    put_snmp(
        outbox,
        datagram.octets,
        way.source_image(),
        way.destination_image(),
        &seen,
    );
}

/// The datagram passes with the message that the rules make, unless that is too long. It is judged before anything is bound.
fn pass_by_rules(
    table: &mut Table,
    way: &Way,
    datagram: &UdpDatagram<'_>,
    scratch: &mut Scratch,
    outbox: &mut Datagrams,
) -> Option<Refusal>
    requires way { IsWay table.old way.now }
    requires settled { is_settled way.now.of_destination ≡ true }
    requires moment { IsMoment way.now.moment.0 }
    requires empty { outbox.old ≡ [] }
    requires whole { IsUdpOf datagram.now.octets.now datagram.now.payload.now }
    requires message { IsSome (message datagram.now.payload.now) }
    ensures refusal { result
        ≡ first_that_holds ((
          nat_lt MOST_CARRIED
              (length (oid_renamed (number_planned table.old way.now) table.old.oids datagram.now.payload.now)),
          SnmpTooLong,
        ) ∷ []) }
    ensures table { table.new
        ≡ unless_refused result
        (after_uses table.old (header_uses way.now UDP_TIMEOUT)) table.old }
    ensures out { outbox.new
        ≡ unless_refused result
        (rebuilt (datagram_of datagram.now.octets.now)
        (image_by way.now.of_source way.now.source).0
        (image_by way.now.of_destination way.now.destination).0
        (oid_renamed (number_planned table.old way.now) table.old.oids
        datagram.now.payload.now) ∷ []) [] }
{
    let fits = put_snmp_by_rules(
        outbox,
        datagram.octets,
        way.source_image(),
        way.destination_image(),
        table.oids(),
        &Planned { table, way },
        scratch,
    );
    if !fits {
        return Some(Refusal::SnmpTooLong);
    }
    way.use_both(table, UDP_TIMEOUT);
    None
}

/// Takes a datagram with an SNMP message.
#[inline(never)]
pub fn take_snmp(
    table: &mut Table,
    way: &Way,
    datagram: &UdpDatagram<'_>,
    scratch: &mut Scratch,
    outbox: &mut Datagrams,
) -> Option<Refusal>
    requires way { IsWay table.old way.now }
    requires settled { is_settled way.now.of_destination ≡ true }
    requires moment { IsMoment way.now.moment.0 }
    requires empty { outbox.old ≡ [] }
    requires whole { IsUdpOf datagram.now.octets.now datagram.now.payload.now }
    ensures taken { (live : World PlainSession)
        → live.table ≡ table.old
        → IsWayOf live way.now.side (datagram_of datagram.now.octets.now) way.now
        → IsTaken plain_rules live way.now.side (datagram_of datagram.now.octets.now)
        (kinds.Whole kinds.Snmp) result table.new outbox.new }
{
    if check(datagram.payload).is_none() {
        return Some(Refusal::BadSnmp);
    }
    if lacks_alias(way) {
        return Some(Refusal::PoolEmpty);
    }
    if !table.oids().is_empty() {
        return pass_by_rules(table, way, datagram, scratch, outbox);
    }
    pass_basic(table, way, datagram, outbox);
    None
}
