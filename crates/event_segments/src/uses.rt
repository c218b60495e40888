// The uses of a segment of a session (RFC 2694, RFC 3022, 3.1).
ghost use Rattle.std.specs.Prelude.{◌≡◌, ◌≤◌, ◌++◌, take, length, true, Some};
ghost use Rattle.gate_base.specs.Prelude.{IsMoment, IsTimeout, other};
ghost use Rattle.gate_base.specs.declared.host.Host.TheVariants.{Client, Server};
ghost use Rattle.binding_table.specs.Prelude.{is_settled, after_uses};
ghost use Rattle.gate_model.specs.Prelude.{renamed_in, uses_until};
ghost use Rattle.gate_model.specs.Stream as streams;
ghost use Rattle.gate_model.specs.World as worlds;
ghost use Rattle.tcp_tracker.specs.Prelude.{connection_of};
ghost use Rattle.event_payloads.specs.Prelude.{IsWay};
ghost use Rattle.event_segments.specs.SegmentFate.{uses_planned};

use crate::entries::use_entry;
use crate::found::SegmentPlan;
use binding_table::Table;
use dns_plans::{Session, Tracked};
use event_payloads::{Way, use_all};
use gate_base::{Host, Moment, Side};
use tcp_tracker::{ConnKey, SessionTable};

/// Uses the addresses of the first entries of a host's list, from the host's realm.
fn use_list<S: Session>(
    table: &mut Table,
    session: &S,
    host: Host,
    count: usize,
    side: Side,
    until: Moment,
)
    requires { count ≤ length (S.rules.listed host session.now) }
    ensures { table.new
        ≡ after_uses table.old (uses_until side until.0
        (renamed_in (take count (S.rules.listed host session.now)))) }
{
    for place in 0..count {
        use_entry(table, side, session.entry(host, place), until);
    }
}

/// Uses the addresses that the lists of a session rename, as long as they were before the segment: the client's list first.
fn use_lists<S: Session>(table: &mut Table, tracked: &Tracked<S>, plan: &SegmentPlan, until: Moment)
    requires client { plan.now.client
        ≤ length (S.rules.listed Client tracked.now.session) }
    requires server { plan.now.server
        ≤ length (S.rules.listed Server tracked.now.session) }
    ensures { table.new
        ≡ after_uses table.old (uses_until tracked.now.client until.0 (renamed_in
        (take plan.now.client (S.rules.listed Client tracked.now.session)))
        ++ uses_until (other tracked.now.client) until.0 (renamed_in
        (take plan.now.server (S.rules.listed Server tracked.now.session)))) }
{
    let client = tracked.client;
    use_list(
        table,
        &tracked.session,
        Host::Client,
        plan.client,
        client,
        until,
    );
    use_list(
        table,
        &tracked.session,
        Host::Server,
        plan.server,
        client.other(),
        until,
    );
}

/// Uses the addresses of a segment's header, those that its units name, and those that the lists of its session rename, which has taken
/// it.
#[inline(always)]
pub fn use_segment<S: Session>(
    table: &mut Table,
    connections: &SessionTable<Tracked<S>>,
    way: &Way,
    key: &ConnKey,
    plan: &SegmentPlan,
    timeout: u64,
)
    requires way { IsWay table.old way.now }
    requires settled { is_settled way.now.of_destination ≡ true }
    requires moment { IsMoment way.now.moment.0 }
    requires timeout { IsTimeout timeout }
    requires client { (t : worlds.Tracked S)
        → streams.session_in (connection_of key.now connections.now) ≡ Some t
        → plan.now.client ≤ length (S.rules.listed Client t.session) }
    requires server { (t : worlds.Tracked S)
        → streams.session_in (connection_of key.now connections.now) ≡ Some t
        → plan.now.server ≤ length (S.rules.listed Server t.session) }
    ensures { (t : worlds.Tracked S)
        → streams.session_in (connection_of key.now connections.now) ≡ Some t
        → table.new
        ≡ after_uses table.old (uses_planned S.rules way.now plan.now timeout t) }
{
    let until = Moment(way.moment.0 + timeout);
    way.use_both(table, timeout);
    use_all(table, way.side, &plan.units.named, until);
    if plan.client == 0 && plan.server == 0 {
        return;
    }
    if let Some(tracked) = connections.session(key) {
        use_lists(table, tracked, plan, until);
    }
}
