// UDP datagrams, by their ports.
ghost use Rattle.std.specs.Prelude.{◌≡◌, ◌||◌, ◌==◌, [], IfOk, OnErr};
ghost use Rattle.gate_base.specs.Prelude.{IsMoment};
ghost use Rattle.twice_translate.specs.Renamed.{datagram_of};
ghost use Rattle.udp_icmp.specs.Udp.{udp_fields_of};
ghost use Rattle.gate_model.specs.Frame as kinds;
ghost use Rattle.event_payloads.specs.Prelude.{plain_rules, IsTaken, IsWayOf};
ghost use Rattle.event_payloads.specs.Taken.{IsUdpOf};
ghost use Rattle.event_segments.specs.Passed.{plain_world};

use crate::workspace::Workspace;
use binding_table::Table;
use event_outbox::Datagrams;
use event_payloads::{UdpDatagram, Way, take_dns, take_plain, take_snmp};
use gate_base::{DNS_PORT, OutOfMemory, SNMP_PORT, TRAP_PORT};
use gate_model::UDP_TIMEOUT;
use udp_icmp::UdpView;
use verdicts::Refusal;

/// Takes a UDP datagram, by its ports. There is too little memory only at one of DNS, and then nothing has changed.
#[inline(always)]
pub fn take_udp(
    workspace: &mut Workspace,
    table: &mut Table,
    way: &Way,
    datagram: &UdpDatagram<'_>,
    view: &UdpView<'_>,
    outbox: &mut Datagrams,
) -> Result<Option<Refusal>, OutOfMemory>
    requires way { IsWayOf (plain_world way.now.moment.0 table.old) way.now.side
        (datagram_of datagram.now.octets.now) way.now }
    requires moment { IsMoment way.now.moment.0 }
    requires empty { outbox.old ≡ [] }
    requires whole { IsUdpOf datagram.now.octets.now datagram.now.payload.now }
    requires view { view.now
        ≡ udp_fields_of (datagram_of datagram.now.octets.now).payload }
    ensures taken { IfOk result (λ r. IsTaken plain_rules
        (plain_world way.now.moment.0 table.old) way.now.side
        (datagram_of datagram.now.octets.now)
        (kinds.Whole (kinds.udp_payload (datagram_of datagram.now.octets.now))) r table.new
        outbox.new) }
    ensures memory { OnErr result ((table.new ≡ table.old) × (outbox.new ≡ [])) }
    ensures wants { OnErr result
        (kinds.udp_payload (datagram_of datagram.now.octets.now) ≡ kinds.Dns) }
{
    let ports = view.ports();
    if has_port(ports, DNS_PORT) {
        return take_dns(
            workspace.alloc,
            table,
            &mut workspace.seen_addresses,
            way,
            datagram,
            outbox,
        );
    }
    if has_port(ports, SNMP_PORT) || has_port(ports, TRAP_PORT) {
        return Ok(take_snmp(table, way, datagram, &mut workspace.scratch, outbox));
    }
    Ok(take_plain(table, way, UDP_TIMEOUT, datagram.octets, outbox))
}

fn has_port(ports: (u16, u16), port: u16) -> bool
    ensures { result ≡ (ports.0 == port || ports.1 == port) }
{
    ports.0 == port || ports.1 == port
}
