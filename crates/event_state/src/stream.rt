// TCP segments, their connections and their sessions.
ghost use Rattle.std.specs.Prelude.{◌≡◌, ◌&&◌, [], true, Option, None, Some, IfOk, OnErr, OnOk};
ghost use Rattle.gate_base.specs.Prelude.{IsMoment};
ghost use Rattle.gate_base.specs.declared.address.Addr.{Addr};
ghost use Rattle.tcp_tracker.specs.Prelude.{connection_of, replaced};
ghost use Rattle.gate_model.specs.Frame as kinds;
ghost use Rattle.gate_model.specs.Stream as streams;
ghost use Rattle.gate_model.specs.Prelude.{KeepsListed};
ghost use Rattle.gate_model.specs.World as worlds;
ghost use Rattle.event_payloads.specs.Prelude.{IsWayOf};
ghost use Rattle.event_segments.specs.Prelude.{IsPlanOf, IsSegmentOf, AreCalled, Enters, made_on, pair_on};
ghost use Rattle.event_state.specs.Engines.{HasLaws, IsStepped, IsUnstepped};
ghost use Rattle.event_state.specs.Knowing.{world_in};
ghost use Rattle.event_state.specs.Inside.Keys.{IsOnKey};
ghost use Rattle.event_state.specs.Lost.{IsSegmentDone};

use crate::engine::Engine;
use crate::state::State;
use crate::stepped::Stepped;
use crate::taken::{Taken, whole};
use dns_plans::{Completed, Tracked};
use event_outbox::{Datagrams, Segment};
use event_payloads::{Way, lacks_alias};
use event_segments::{
    SegmentFate, SegmentPlan, Workspace, is_first, is_full, is_late, key_in, look_up,
    take_untracked, timeout_of, use_segment,
};
use gate_base::{OutOfMemory, Pair};
use std::alloc::Global;
use std::mem;
use tcp_segments::TcpView;
use tcp_tracker::{ConnKey, SHORT_TIMEOUT, SessionTable};
use verdicts::Refusal;

impl<S: Engine> State<S> {
    /// Takes a segment.
    pub fn take_segment(
        &mut self,
        way: &Way,
        segment: &Segment<'_>,
        outbox: &mut Datagrams,
    ) -> Result<Taken<S::Sent>, OutOfMemory>
        requires laws { HasLaws S.rules }
        requires listed { KeepsListed S.rules (world_in self.old) }
        requires way { IsWayOf (world_in self.old) way.now.side
            segment.now.datagram.now way.now }
        requires moment { IsMoment way.now.moment.0 }
        requires empty { outbox.old ≡ [] }
        requires whole { IsSegmentOf segment.now.octets.now segment.now.datagram.now
            segment.now.tcp.now }
        ensures { IsSegmentDone S.rules S.gives (world_in self.old) way.now.side
            segment.now.datagram.now result (world_in self.new) outbox.new }
    {
        let key = key_in(way, segment.tcp.ports());
        self.take_on_connection(way, &key, segment, outbox)
    }

    // Takes a segment of the connection with this name.
    fn take_on_connection(
        &mut self,
        way: &Way,
        key: &ConnKey,
        segment: &Segment<'_>,
        outbox: &mut Datagrams,
    ) -> Result<Taken<S::Sent>, OutOfMemory>
        requires listed { KeepsListed S.rules (world_in self.old) }
        requires on { IsOnKey S.rules (world_in self.old) way.now key.now segment.now
            outbox.old }
        ensures { IsSegmentDone S.rules S.gives (world_in self.old) way.now.side
            segment.now.datagram.now result (world_in self.new) outbox.new }
    {
        let found = look_up(
            &mut self.workspace,
            &self.table,
            &self.connections,
            way,
            key,
            segment,
        );
        match found {
            SegmentFate::Absent => self.take_beginning(way, key, segment, outbox),
            SegmentFate::Untracked => Ok(whole(take_untracked(
                &mut self.table,
                &mut self.connections,
                way,
                key,
                segment,
                outbox,
            ))),
            SegmentFate::Tracked(plan) => self.take_by_session(way, key, segment, plan, outbox),
            SegmentFate::Refused(refusal) => Ok(Taken::Refused(refusal)),
            SegmentFate::Lost => Err(OutOfMemory),
        }
    }

    // Takes a segment whose connection doesn't live.
    fn take_beginning(
        &mut self,
        way: &Way,
        key: &ConnKey,
        segment: &Segment<'_>,
        outbox: &mut Datagrams,
    ) -> Result<Taken<S::Sent>, OutOfMemory>
        requires on { IsOnKey S.rules (world_in self.old) way.now key.now segment.now
            outbox.old }
        requires absent { connection_of key.now self.old.connections ≡ None }
        ensures { IsSegmentDone S.rules S.gives (world_in self.old) way.now.side
            segment.now.datagram.now result (world_in self.new) outbox.new }
    {
        if is_late(segment.tcp) {
            return Ok(Taken::Refused(Refusal::NoSession));
        }
        if is_first(segment.tcp) {
            return self.take_first(way, key, segment, outbox);
        }
        Ok(whole(take_untracked(
            &mut self.table,
            &mut self.connections,
            way,
            key,
            segment,
            outbox,
        )))
    }

    // Takes a segment of a connection that has a session, which takes it by this plan.
    fn take_by_session(
        &mut self,
        way: &Way,
        key: &ConnKey,
        segment: &Segment<'_>,
        mut plan: SegmentPlan,
        outbox: &mut Datagrams,
    ) -> Result<Taken<S::Sent>, OutOfMemory>
        requires listed { KeepsListed S.rules (world_in self.old) }
        requires on { IsOnKey S.rules (world_in self.old) way.now key.now segment.now
            outbox.old }
        requires plan { (t : worlds.Tracked S)
            × IsPlanOf S.rules (world_in self.old) way.now.side
            segment.now.datagram.now t plan }
        ensures { IsSegmentDone S.rules S.gives (world_in self.old) way.now.side
            segment.now.datagram.now result (world_in self.new) outbox.new }
    {
        let flags = segment.tcp.flags();
        let timeout = timeout_of(&self.connections, way, key, flags);
        let alloc = self.workspace.alloc;
        let completed = Completed {
            images: mem::replace(&mut plan.units.images, Vec::new(alloc)),
            entries: &plan.units.entries,
        };
        let on = SegmentOn { way, key, segment };
        let stepped = step_session(
            &mut self.connections,
            &mut self.workspace,
            on,
            completed,
            outbox,
        )?;
        match stepped.waiting {
            Some(waiting) => {
                self.pending = self.pending.max(waiting);
                use_segment(&mut self.table, &self.connections, way, key, &plan, timeout);
                self.connections.note(*key, way.side, flags, way.moment);
                Ok(Taken::Cut(stepped.sent))
            }
            None => {
                use_segment(
                    &mut self.table,
                    &self.connections,
                    way,
                    key,
                    &plan,
                    SHORT_TIMEOUT,
                );
                self.connections.remove(key);
                Ok(Taken::Cut(stepped.sent))
            }
        }
    }

    // Takes the first segment of a connection that is tracked: it makes the session, and is the first segment that this takes.
    #[inline(never)]
    fn take_first(
        &mut self,
        way: &Way,
        key: &ConnKey,
        segment: &Segment<'_>,
        outbox: &mut Datagrams,
    ) -> Result<Taken<S::Sent>, OutOfMemory>
        requires on { IsOnKey S.rules (world_in self.old) way.now key.now segment.now
            outbox.old }
        requires absent { connection_of key.now self.old.connections ≡ None }
        requires first { (streams.is_opening segment.now.tcp.now.flags
            && kinds.is_tracked_port segment.now.tcp.now.destination_port)
            ≡ true }
        ensures { IsSegmentDone S.rules S.gives (world_in self.old) way.now.side
            segment.now.datagram.now result (world_in self.new) outbox.new }
    {
        let pair = pair_on(way);
        if let Some(refusal) = S::opening_refusal(self.workspace.alloc, pair, segment.tcp) {
            return Ok(Taken::Refused(refusal));
        }
        if is_full(&self.connections) {
            return Ok(Taken::Refused(Refusal::SessionsFull));
        }
        if lacks_alias(way) {
            return Ok(Taken::Refused(Refusal::PoolEmpty));
        }
        let flags = segment.tcp.flags();
        let timeout = timeout_of(&self.connections, way, key, flags);
        let alloc = self.workspace.alloc;
        let mut tracked: Tracked<S> = made(alloc, way, pair, segment.tcp)?;
        let none = Completed {
            entries: &[],
            images: Vec::new(alloc),
        };
        let stepped = S::take(
            &mut tracked,
            &mut self.workspace,
            way,
            segment,
            none,
            outbox,
        )?;
        self.pending = self.pending.max(stepped.waiting.unwrap_or(0));
        self.connections
            .open(*key, way.side, flags, tracked, way.moment);
        way.use_both(&mut self.table, timeout);
        Ok(Taken::Cut(stepped.sent))
    }
}

/// A segment of a connection: its way, the name of the connection, and the segment.
#[derive(Clone, Copy)]
struct SegmentOn<'a> {
    way: &'a Way,
    key: &'a ConnKey,
    segment: &'a Segment<'a>,
}

/// The session of a connection takes a segment, whose units bring these entries and images.
fn step_session<S: Engine>(
    connections: &mut SessionTable<Tracked<S>>,
    workspace: &mut Workspace,
    on: SegmentOn<'_>,
    completed: Completed<'_>,
    outbox: &mut Datagrams,
) -> Result<Stepped<S::Sent>, OutOfMemory>
    requires enters { (t : worlds.Tracked S)
        → streams.session_in (connection_of on.key.now connections.old) ≡ Some t
        → Enters S.rules on.way.now.side on.segment.now.datagram.now t
        completed.entries.now completed.images.items }
    requires empty { outbox.old ≡ [] }
    requires whole { IsSegmentOf on.segment.now.octets.now
        on.segment.now.datagram.now on.segment.now.tcp.now }
    ensures next { (image : Addr → Option Addr) (t : worlds.Tracked S)
        → streams.session_in (connection_of on.entry.key.now connections.old) ≡ Some t
        → AreCalled S.rules image on.entry.way.now.side
        on.entry.segment.now.datagram.now t completed.entry.entries.now
        → OnOk result (connections.new
        ≡ replaced connections.old on.entry.key.now (streams.stepped S.rules image
        on.entry.way.now.side on.entry.segment.now.datagram.now t)) }
    ensures stepped { (image : Addr → Option Addr) (t : worlds.Tracked S)
        → streams.session_in (connection_of on.entry.key.now connections.old) ≡ Some t
        → AreCalled S.rules image on.entry.way.now.side
        on.entry.segment.now.datagram.now t completed.entry.entries.now
        → IfOk result (λ s. IsStepped S.rules S.gives image on.entry.way.now
        on.entry.segment.now.datagram.now t s outbox.new) }
    ensures lost { (t : worlds.Tracked S)
        → streams.session_in (connection_of on.entry.key.now connections.old) ≡ Some t
        → OnErr result (IsUnstepped S.gives on.entry.way.now.side
        on.entry.segment.now.datagram.now t connections.old connections.new
        outbox.new) }
{
    match connections.session_mut(on.key) {
        Some(tracked) => { S::take(tracked, workspace, on.way, on.segment, completed, outbox) }
        None => Err(OutOfMemory),
    }
}

/// The pair of the hosts on a way.
fn pair_on(way: &Way) -> Pair
    ensures { result ≡ pair_on way.now }
{
    Pair {
        client: way.source,
        client_alias: way.source_image(),
        server: way.destination_image(),
        server_alias: way.destination,
    }
}

/// The session that a client's first segment makes, itself not yet taken.
fn made<S: Engine>(
    alloc: Global,
    way: &Way,
    pair: Pair,
    tcp: &TcpView<'_>,
) -> Result<Tracked<S>, OutOfMemory>
    requires { pair ≡ pair_on way.now }
    ensures { IfOk result (λ tracked. tracked ≡ made_on S.rules way.now tcp.now) }
{
    let session = S::new(alloc, tcp.ports().1, pair, tcp.sequence(), tcp.mss())?;
    Ok(Tracked {
        client: way.side,
        pair,
        session,
    })
}
