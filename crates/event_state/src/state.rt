// What is known from event to event, and what a frame changes of it.
ghost use Rattle.std.specs.Prelude.{◌≡◌, ◌≤◌, false, ◌==◌, [], length, IfOk};
ghost use Rattle.gate_base.specs.Prelude.{IsMoment, event_of};
ghost use Rattle.verdicts.specs.Prelude.{first_that_holds};
ghost use Rattle.gate_base.specs.declared.protocol.TheConstants.{LONGEST_DATAGRAM, TCP, UDP};
ghost use Rattle.twice_translate.specs.Renamed.{CanGoOn, datagram_of};
ghost use Rattle.gate_model.specs.Frame as kinds;
ghost use Rattle.gate_model.specs.Prelude.{opening_world, at_moment, KeepsListed, datagram_in, kind_of, tests, world_tests, address_tests};
ghost use Rattle.event_payloads.specs.Prelude.{IsWayOf, IsTaken};
ghost use Rattle.event_frame.specs.Frames.{IsJudged};
ghost use Rattle.event_state.specs.Engines.{HasLaws};
ghost use Rattle.event_state.specs.Knowing.{world_in};
ghost use Rattle.event_state.specs.Lost.{early_tests, IsDone};
ghost use Rattle.gate_settings.specs.Prelude.{IsSound, HasForms};
ghost use Rattle.udp_icmp.specs.Icmp.{icmp_fields_of};

use crate::engine::Engine;
use crate::taken::{Taken, whole, whole_of};
use binding_table::Table;
use dns_plans::Tracked;
use event_frame::{Content, Judged, judge};
use event_outbox::{Datagrams, Segment};
use event_payloads::{UdpDatagram, Way, address_refusal, take_plain};
use event_segments::{Workspace, take_error, take_udp};
use expiring_table::Seed;
use gate_base::{Event, Moment, OutOfMemory, Side};
use gate_model::ICMP_TIMEOUT;
use gate_settings::Settings;
use std::alloc::Global;
use tcp_tracker::SessionTable;
use udp_icmp::IcmpView;
use verdicts::Refusal;

/// What is known: the clock, the bindings, the connections with their sessions, and the greatest number of changed lines or units
/// that ever waited. With it are the rooms to work with.
pub struct State<S> {
    pub clock: Moment,
    pub table: Table,
    pub connections: SessionTable<Tracked<S>>,
    pub pending: u64,
    pub workspace: Workspace,
}

// By a call of its own, since a drop that is written out wherever it happens is slow to prove.
impl<S: Drop> Drop for State<S> {
    fn drop(self) {
        let Self {
            clock,
            table,
            connections,
            pending,
            workspace,
        } = self;
    }
}

impl<S: Engine> State<S> {
    /// Nothing has come.
    pub fn new(alloc: Global, settings: &Settings, seed: Seed) -> Result<State<S>, OutOfMemory>
        requires sound { IsSound settings.now }
        requires forms { HasForms settings.now }
        ensures { IfOk result (λ state. world_in state ≡ opening_world settings.now) }
    {
        Ok(State {
            clock: Moment(0),
            table: Table::new(alloc, settings, seed)?,
            connections: SessionTable::new(alloc, seed)?,
            pending: 0,
            workspace: Workspace::new(alloc, seed)?,
        })
    }

    /// Spreads the keys of the tables by another seed.
    pub fn reseed(&mut self, seed: Seed)
        ensures { self.new ≡ self.old }
    {
        self.table.reseed(seed);
        self.connections.reseed(seed);
        self.workspace.seen_addresses.reseed(seed);
    }

    /// Sets the clock: bindings and connections end.
    pub fn expire(&mut self, moment: Moment)
        ensures live { world_in self.new ≡ at_moment (world_in self.old) moment.0 }
        ensures clock { self.new.clock ≡ moment }
    {
        self.clock = moment;
        self.table.expire(moment);
        self.connections.expire(moment);
    }

    /// Takes the frame of an event of this moment.
    pub fn take_frame(
        &mut self,
        event: &Event<'_>,
        outbox: &mut Datagrams,
    ) -> Result<Taken<S::Sent>, OutOfMemory>
        requires laws { HasLaws S.rules }
        requires listed { KeepsListed S.rules (world_in self.old) }
        requires clock { self.old.clock ≡ event.now.moment }
        requires moment { IsMoment event.now.moment.0 }
        requires empty { outbox.old ≡ [] }
        ensures { IsDone S.rules S.gives
            (first_that_holds
            (tests S.rules (world_in self.old) (event_of event.now)))
            (first_that_holds (early_tests (world_in self.old) (event_of event.now)))
            (world_in self.old) event.now.side (datagram_in (event_of event.now))
            result (world_in self.new) outbox.new }
    {
        match judge(event) {
            Ok(frame) => self.take(event.side, &frame, outbox),
            Err(refusal) => Ok(Taken::Refused(refusal)),
        }
    }

    // Takes a datagram that passes by itself.
    fn take(
        &mut self,
        side: Side,
        frame: &Judged<'_>,
        outbox: &mut Datagrams,
    ) -> Result<Taken<S::Sent>, OutOfMemory>
        requires laws { HasLaws S.rules }
        requires listed { KeepsListed S.rules (world_in self.old) }
        requires judged { IsJudged frame.now.octets.now frame.now.datagram
            frame.now.content }
        requires moment { IsMoment self.old.clock.0 }
        requires empty { outbox.old ≡ [] }
        ensures { IsDone S.rules S.gives
            (first_that_holds (world_tests S.rules (world_in self.old) side
            self.old.clock.0 frame.now.datagram (kind_of frame.now.datagram)))
            (first_that_holds (address_tests self.old.table side frame.now.datagram))
            (world_in self.old) side frame.now.datagram result (world_in self.new)
            outbox.new }
    {
        let datagram = &frame.datagram;
        let way = Way::of(
            &self.table,
            side,
            self.clock,
            datagram.source(),
            datagram.destination(),
        );
        if let Some(refusal) = address_refusal(&self.table, &way) {
            return Ok(Taken::Refused(refusal));
        }
        match &frame.content {
            Content::Udp(view) => whole_of(take_udp(
                &mut self.workspace,
                &mut self.table,
                &way,
                &UdpDatagram {
                    octets: frame.octets,
                    payload: view.payload(),
                },
                view,
                outbox,
            )),
            Content::Icmp(view) => Ok(whole(self.take_icmp(&way, frame.octets, view, outbox))),
            Content::Tcp(view) => self.take_segment(
                &way,
                &Segment {
                    octets: frame.octets,
                    datagram,
                    tcp: view,
                },
                outbox,
            ),
        }
    }

    // Takes an ICMP message, by its type.
    fn take_icmp(
        &mut self,
        way: &Way,
        octets: &[u8],
        view: &IcmpView<'_>,
        outbox: &mut Datagrams,
    ) -> Option<Refusal>
        requires way { IsWayOf (world_in self.old) way.now.side
            (datagram_of octets.now) way.now }
        requires moment { IsMoment way.now.moment.0 }
        requires empty { outbox.old ≡ [] }
        requires few { length octets.now ≤ LONGEST_DATAGRAM }
        requires can { CanGoOn octets.now }
        requires view { view.now ≡ icmp_fields_of (datagram_of octets.now).payload }
        requires other { ((datagram_of octets.now).protocol == UDP) ≡ false }
        requires neither { ((datagram_of octets.now).protocol == TCP) ≡ false }
        ensures rest { self.new ≡ record self.old { table = self.new.table } }
        ensures taken { IsTaken S.rules (world_in self.old) way.now.side
            (datagram_of octets.now) (kinds.Whole (kinds.icmp_payload (datagram_of octets.now))) result
            self.new.table outbox.new }
    {
        if view.is_error() {
            return take_error(
                &mut self.table,
                &self.connections,
                way,
                octets,
                view.inner(),
                outbox,
            );
        }
        take_plain(&mut self.table, way, ICMP_TIMEOUT, octets, outbox)
    }
}
