// One frame: it is judged, and what it gives is written.
ghost use Rattle.std.specs.Prelude.{◌≡◌, ◌<◌, ◌≤◌, ◌^◌, ◌++◌, [], ◌∷◌, length, IfSome, IsSome};
ghost use Rattle.gate_base.specs.Prelude.{IsMoment, event_of};
ghost use Rattle.gate_base.specs.declared.protocol.TheConstants.{LONGEST_DATAGRAM};
ghost use Rattle.gate_desk.specs.declared.slot.Slot.TheVariants.{LeftOut, RightOut, Report};
ghost use Rattle.gate_desk.specs.Outside.{CanWrite};
ghost use Rattle.frag_join.specs.Prelude.{Reaches, Stopped, arrival, joiner_after, joined_in, by_known};
ghost use Rattle.ether_frames.specs.Ether.{ipv4_head};
ghost use Rattle.gateway.specs.Machine.{out_slot, frame_piece, sent};
ghost use Rattle.gateway.specs.Inside.Causes.{WritesPieces};
ghost use Rattle.gateway.specs.Inside.Phases.{CanCount, Handles, counting};

use crate::report::Reporter;
use ether_frames::put_head;
use frag_join::{Joiner, Taken, ask, joined};
use gate_base::{Event, Link, Moment, Side};
use gate_core::{Datagrams, Gate};
use gate_desk::{Desk, Slot};
use gate_settings::{Settings, SideSettings};
use pcap_files::write_packet;
use run_setup::Status;
use verdicts::Verdict;

/// The octets of an Ethernet head.
const HEAD: usize = 14;

fn out_slot(side: Side) -> Slot
    ensures { result ≡ out_slot side }
{
    match side {
        Side::Left => Slot::LeftOut,
        Side::Right => Slot::RightOut,
    }
}

/// Writes a datagram behind its frame's head to a realm's capture.
#[inline(always)]
fn write_frame<D: Desk>(
    desk: &mut D,
    side: Side,
    moment: Moment,
    head: &[u8],
    datagram: &[u8],
) -> Result<(), Status>
    requires left { CanWrite (D.outside desk.old) LeftOut }
    requires right { CanWrite (D.outside desk.old) RightOut }
    requires early { IsMoment moment.0 }
    requires head { length head.now ≤ HEAD }
    requires short { length datagram.now ≤ LONGEST_DATAGRAM }
    ensures { WritesPieces result
        (frame_piece side moment.0 (head.now ++ datagram.now) ∷ [])
        (D.outside desk.old) (D.outside desk.new) }
{
    let slot = out_slot(side);
    match write_packet(desk, slot, moment, head, datagram) {
        Ok(()) => Ok(()),
        Err(_) => Err(Status::WriteFault(slot)),
    }
}

/// The head of an Ethernet frame from the gateway to the next router or host of a realm.
fn head_to(realm: &SideSettings) -> [u8; HEAD]
    ensures { result ≡ ipv4_head realm.now.next_mac realm.now.gateway_mac }
{
    let mut head = [0; HEAD];
    put_head(&realm.next_mac, &realm.gateway_mac, &mut head);
    head
}

/// Sends a datagram to a realm.
fn send<D: Desk>(
    desk: &mut D,
    settings: &Settings,
    side: Side,
    moment: Moment,
    datagram: &[u8],
) -> Result<(), Status>
    requires left { CanWrite (D.outside desk.old) LeftOut }
    requires right { CanWrite (D.outside desk.old) RightOut }
    requires early { IsMoment moment.0 }
    requires short { length datagram.now ≤ LONGEST_DATAGRAM }
    ensures { WritesPieces result
        (sent settings.now side moment.0 (datagram.now ∷ [])) (D.outside desk.old)
        (D.outside desk.new) }
{
    let realm = settings.side(side);
    match realm.link {
        Link::Raw => write_frame(desk, side, moment, &[], datagram),
        Link::Ethernet => write_frame(desk, side, moment, &head_to(realm), datagram),
    }
}

/// Sends the datagrams of an outbox to a realm, in their order.
#[inline(always)]
fn send_all<D: Desk>(
    desk: &mut D,
    settings: &Settings,
    side: Side,
    moment: Moment,
    outbox: &Datagrams,
) -> Result<(), Status>
    requires left { CanWrite (D.outside desk.old) LeftOut }
    requires right { CanWrite (D.outside desk.old) RightOut }
    requires early { IsMoment moment.0 }
    ensures { WritesPieces result (sent settings.now side moment.0 outbox.now)
        (D.outside desk.old) (D.outside desk.new) }
{
    for place in 0..outbox.len() {
        send(desk, settings, side, moment, outbox.datagram(place))?;
    }
    Ok(())
}

/// Takes an event that comes to the gate: its frame goes on, if it passes, then its line is written, and it is counted.
#[inline(always)]
fn handle<D: Desk>(
    desk: &mut D,
    gate: &mut Gate,
    outbox: &mut Datagrams,
    reporter: &mut Reporter,
    event: Event<'_>,
) -> Result<(), Status>
    requires left { CanWrite (D.outside desk.old) LeftOut }
    requires right { CanWrite (D.outside desk.old) RightOut }
    requires report { CanWrite (D.outside desk.old) Report }
    requires early { IsMoment event.moment.0 }
    requires few { reporter.old.totals.events < 2 ^ 42 }
    requires counts { CanCount reporter.old.totals }
    ensures { Handles (counting reporter.new.totals result) gate.old gate.new
        reporter.old.totals (Reaches (event_of event.entry)) (D.outside desk.old)
        (D.outside desk.new) }
{
    let verdict = gate.step(&event, outbox)?;
    let frames = outbox.len() as u32;
    let settings = gate.settings();
    send_all(desk, settings, event.side.other(), event.moment, outbox)?;
    reporter.report(desk, settings.report, &event, verdict, frames)
}

/// Takes a frame that doesn't come to the gate: its line is written, and it is counted.
#[inline(never)]
fn leave<D: Desk>(
    desk: &mut D,
    gate: &Gate,
    reporter: &mut Reporter,
    event: Event<'_>,
    verdict: Verdict,
) -> Result<(), Status>
    requires report { CanWrite (D.outside desk.old) Report }
    requires few { reporter.old.totals.events < 2 ^ 42 }
    requires counts { CanCount reporter.old.totals }
    ensures { Handles (counting reporter.new.totals result) gate.now gate.now
        reporter.old.totals (Stopped (event_of event.entry) verdict)
        (D.outside desk.old) (D.outside desk.new) }
{
    reporter.report(desk, gate.settings().report, &event, verdict, 0)
}

/// Takes the datagram that the last frame completed, as an event that comes to the gate.
#[inline(never)]
fn handle_joined<D: Desk>(
    desk: &mut D,
    joiner: &Option<Joiner>,
    gate: &mut Gate,
    outbox: &mut Datagrams,
    reporter: &mut Reporter,
) -> Result<(), Status>
    requires left { CanWrite (D.outside desk.old) LeftOut }
    requires right { CanWrite (D.outside desk.old) RightOut }
    requires report { CanWrite (D.outside desk.old) Report }
    requires joined { IsSome (joined_in joiner.now) }
    requires early { IfSome (joined_in joiner.now) (λ e. IsMoment e.moment) }
    requires few { reporter.old.totals.events < 2 ^ 42 }
    requires counts { CanCount reporter.old.totals }
    ensures { IfSome (joined_in joiner.now) (λ e. Handles
        (counting reporter.new.totals result) gate.old gate.new reporter.old.totals
        (Reaches e) (D.outside desk.old) (D.outside desk.new)) }
{
    handle(desk, gate, outbox, reporter, joined(joiner))
}

/// Takes a frame: it comes to the gate as it is, or as the datagram that it completes, or its line alone is written.
pub fn take<D: Desk>(
    desk: &mut D,
    joiner: &mut Option<Joiner>,
    gate: &mut Gate,
    outbox: &mut Datagrams,
    reporter: &mut Reporter,
    event: Event<'_>,
) -> Result<(), Status>
    requires left { CanWrite (D.outside desk.old) LeftOut }
    requires right { CanWrite (D.outside desk.old) RightOut }
    requires report { CanWrite (D.outside desk.old) Report }
    requires early { IsMoment event.moment.0 }
    requires few { reporter.old.totals.events < 2 ^ 42 }
    requires counts { CanCount reporter.old.totals }
    ensures answer { Handles (counting reporter.new.totals result) gate.old gate.new
        reporter.old.totals (arrival by_known joiner.old (event_of event.entry))
        (D.outside desk.old) (D.outside desk.new) }
    ensures joiner { joiner.new
        ≡ joiner_after by_known joiner.old (event_of event.entry) }
{
    match ask(joiner, &event) {
        Taken::Plain => handle(desk, gate, outbox, reporter, event),
        Taken::Joined => handle_joined(desk, joiner, gate, outbox, reporter),
        Taken::Held => leave(desk, gate, reporter, event, Verdict::Held),
        Taken::Refused(refusal) => {
            let verdict = Verdict::Refused(refusal);
            leave(desk, gate, reporter, event, verdict)
        }
    }
}
