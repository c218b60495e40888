// What is found of a segment's connection, and what the units of DNS over TCP do that it completes (RFC 2694, RFC 7766).
ghost use Rattle.std.specs.Prelude.{◌≡◌, ◌≤◌, ◌∷◌, [], length, Some, None, IfOk, IfErr};
ghost use Rattle.gate_base.specs.declared.host.Host.{Host};
ghost use Rattle.binding_table.specs.Prelude.{IsLawful};
ghost use Rattle.gate_model.specs.Stream as streams;
ghost use Rattle.gate_model.specs.World as worlds;
ghost use Rattle.gate_model.specs.Prelude.{World, host_on};
ghost use Rattle.tcp_tracker.specs.Prelude.{connection_of};
ghost use Rattle.dialogue.specs.declared.TheConstants.{MOST_ENTRIES};
ghost use Rattle.dns_plans.specs.Prelude.{AreBound, IsListBound};
ghost use Rattle.event_payloads.specs.Prelude.{IsWayOf};
ghost use Rattle.event_segments.specs.SegmentFate.{IsUnitPlan, IsFound};
ghost use Rattle.event_segments.specs.Inside.SegmentFate.{IsOn, IsStopped};

use crate::found::{SegmentFate, SegmentPlan, no_units};
use crate::workspace::Workspace;
use binding_table::Table;
use dns_plans::{Endpoints, PlanStop, Sender, Session, Tracked, UnitPlan, plan_units};
use dns_stream::unit_end;
use event_outbox::Segment;
use event_payloads::Way;
use gate_base::Host;
use tcp_tracker::{ConnKey, SessionTable};
use verdicts::Refusal;

/// Why a session refuses a segment, if it does.
fn session_refusal<S: Session>(
    tracked: &Tracked<S>,
    way: &Way,
    segment: &Segment<'_>,
) -> Option<Refusal>
    requires { segment.now.tcp.now ≡ streams.tcp_of segment.now.datagram.now }
    ensures { result
        ≡ streams.session_refusal S.rules way.now.side segment.now.datagram.now
        (Some tracked.now) }
{
    tracked
        .session
        .refusal(tracked.host_on(way.side), segment.tcp)
}

/// What the units do that a segment completes, which its session passes, or why it is refused. Memory is taken only where it completes
/// one.
fn plan_session<S: Session>(
    workspace: &mut Workspace,
    table: &Table,
    tracked: &Tracked<S>,
    way: &Way,
    segment: &Segment<'_>,
) -> Result<UnitPlan, PlanStop>
    requires segment { segment.now.tcp.now ≡ streams.tcp_of segment.now.datagram.now }
    requires passes { streams.session_refusal S.rules way.now.side
        segment.now.datagram.now (Some tracked.now) ≡ None }
    requires header { AreBound table.now way.now.side
        (way.now.source ∷ way.now.destination ∷ []) }
    requires listed { IsListBound table.now way.now.side
        (S.rules.listed (host_on way.now.side tracked.now) tracked.now.session) }
    requires few { (host : Host)
        → length (S.rules.listed host tracked.now.session) ≤ MOST_ENTRIES }
    ensures planned { (live : World S)
        → live.table ≡ table.now
        → IsOn S.rules live way.now.side segment.now.datagram.now way.now tracked.now
        → IfOk result (IsUnitPlan S.rules live way.now.side segment.now.datagram.now
        tracked.now) }
    ensures stopped { (live : World S)
        → live.table ≡ table.now
        → IsOn S.rules live way.now.side segment.now.datagram.now way.now tracked.now
        → IfErr result
        (IsStopped S.rules live way.now.side segment.now.datagram.now) }
{
    let from = tracked.host_on(way.side);
    tracked
        .session
        .put_octets(from, segment.tcp, &mut workspace.octets);
    if unit_end(workspace.octets.octets()).is_none() {
        return no_units(workspace.alloc, way);
    }
    let sender = Sender {
        session: &tracked.session,
        host: from,
    };
    let endpoints = Endpoints {
        side: way.side,
        source: way.source,
        destination: way.destination,
    };
    plan_units(
        workspace.alloc,
        table,
        &mut workspace.seen_addresses,
        &endpoints,
        &sender,
        workspace.octets.octets(),
    )
}

/// What becomes of a segment of a connection with this session.
fn judge_session<S: Session>(
    workspace: &mut Workspace,
    table: &Table,
    tracked: &Tracked<S>,
    way: &Way,
    segment: &Segment<'_>,
) -> SegmentFate
    requires segment { segment.now.tcp.now ≡ streams.tcp_of segment.now.datagram.now }
    requires header { AreBound table.now way.now.side
        (way.now.source ∷ way.now.destination ∷ []) }
    requires listed { IsListBound table.now way.now.side
        (S.rules.listed (host_on way.now.side tracked.now) tracked.now.session) }
    ensures { (live : World S)
        → live.table ≡ table.now
        → IsLawful live.table
        → IsWayOf live way.now.side segment.now.datagram.now way.now
        → streams.session_in
        (streams.found_in live way.now.side segment.now.datagram.now)
        ≡ Some tracked.now
        → IsFound S.rules live way.now.side segment.now.datagram.now result }
{
    if let Some(refusal) = session_refusal(tracked, way, segment) {
        return SegmentFate::Refused(refusal);
    }
    let client = tracked.session.listed(Host::Client);
    let server = tracked.session.listed(Host::Server);
    match plan_session(workspace, table, tracked, way, segment) {
        Ok(units) => SegmentFate::Tracked(SegmentPlan {
            units,
            client,
            server,
        }),
        Err(PlanStop::Refused(refusal)) => SegmentFate::Refused(refusal),
        Err(PlanStop::OutOfMemory) => SegmentFate::Lost,
    }
}

/// Finds the connection with this name, and what becomes of a segment of it where it has a session.
pub fn look_up<S: Session>(
    workspace: &mut Workspace,
    table: &Table,
    connections: &SessionTable<Tracked<S>>,
    way: &Way,
    key: &ConnKey,
    segment: &Segment<'_>,
) -> SegmentFate
    requires segment { segment.now.tcp.now ≡ streams.tcp_of segment.now.datagram.now }
    requires header { AreBound table.now way.now.side
        (way.now.source ∷ way.now.destination ∷ []) }
    requires listed { (t : worlds.Tracked S)
        → streams.session_in (connection_of key.now connections.now) ≡ Some t
        → IsListBound table.now way.now.side
        (S.rules.listed (host_on way.now.side t) t.session) }
    ensures { (live : World S)
        → live.table ≡ table.now
        → live.connections ≡ connections.now
        → IsLawful live.table
        → key.now ≡ streams.key_in live.table way.now.side segment.now.datagram.now
        → IsWayOf live way.now.side segment.now.datagram.now way.now
        → IsFound S.rules live way.now.side segment.now.datagram.now result }
{
    match connections.find(key) {
        Some(Some(tracked)) => judge_session(workspace, table, tracked, way, segment),
        Some(None) => SegmentFate::Untracked,
        None => SegmentFate::Absent,
    }
}
