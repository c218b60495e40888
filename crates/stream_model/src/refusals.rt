// The first reason for which a segment of a session is refused (RFC 9293, 3.10.7).
ghost use Rattle.std.specs.Prelude.{◌≡◌};
ghost use Rattle.stream_model.specs.Session.{start_at, acknowledged_at, place_acknowledged};
ghost use Rattle.stream_model.specs.Numbers.{is_number};
ghost use Rattle.stream_model.specs.Refusals.{is_data, no_session, syn_data, opens, syn_in_session, no_ack, gap, past_end, ack_ahead, stream_limit, backlog, refusal_of};

use crate::numbers::{Offset, number_at, place_near};
use dialogue::MOST_RECENT;
use gate_base::Host;
use tcp_segments::Flags;
use verdicts::Refusal;

/// A stream has fewer octets than this, a limit of the gateway's own: 2^30, a quarter of the sequence numbers.
pub const STREAM_LIMIT: u64 = 1_073_741_824;

/// What a refusal needs to know of a segment.
#[derive(Clone, Copy, Debug, PartialEq, Eq)]
pub struct Arrival {
    pub sequence: u32,
    pub acknowledgement: u32,
    pub flags: Flags,
    /// How many octets it has.
    pub count: u32,
}

/// What a refusal needs to know of a sender.
#[derive(Clone, Copy, Debug, PartialEq, Eq)]
pub struct Extent {
    /// Its initial number, if it is known.
    pub initial: Option<u32>,
    /// How many octets it has sent so far.
    pub octets: u32,
    /// How many octets of their image are due.
    pub due: u32,
    /// Whether its octets have ended.
    pub ended: bool,
    /// How many of its octets are recent: from Back of the greatest acknowledged place on.
    pub recent: u32,
}

fn is_data(segment: Arrival) -> bool
    ensures { result ≡ is_data segment }
{
    !segment.flags.syn && !segment.flags.reset
}

fn no_session(sender: Extent, receiver: Extent, segment: Arrival) -> bool
    ensures { result ≡ no_session sender receiver segment }
{
    is_data(segment) && (sender.initial.is_none() || receiver.initial.is_none())
}

fn syn_data(segment: Arrival) -> bool
    ensures { result ≡ syn_data segment }
{
    segment.flags.syn && (0 < segment.count || segment.flags.fin || segment.flags.reset)
}

fn is_number(initial: Option<u32>, number: u32) -> bool
    ensures { result ≡ is_number initial number }
{
    match initial {
        Some(same) => same == number,
        None => false,
    }
}

fn opens(from: Host, sender: Extent, segment: Arrival) -> bool
    ensures { result ≡ opens from sender segment }
{
    match from {
        Host::Client => !segment.flags.ack && is_number(sender.initial, segment.sequence),
        Host::Server => {
            segment.flags.ack
                && (sender.initial.is_none() || is_number(sender.initial, segment.sequence))
        }
    }
}

fn syn_in_session(from: Host, sender: Extent, segment: Arrival) -> bool
    ensures { result ≡ syn_in_session from sender segment }
{
    segment.flags.syn && !opens(from, sender, segment)
}

fn no_ack(segment: Arrival) -> bool
    ensures { result ≡ no_ack segment }
{
    is_data(segment) && !segment.flags.ack
}

/// Where a segment starts, seen from the end of its sender's octets. An initial number that isn't known is read as 0.
pub fn start_at(sender: Extent, segment: Arrival) -> Offset
    ensures { result ≡ start_at sender segment }
{
    place_near(
        sender.initial.unwrap_or(0),
        u64::from(sender.octets),
        segment.sequence,
    )
}

fn acknowledged_at(receiver: Extent, segment: Arrival) -> Offset
    ensures { result ≡ acknowledged_at receiver segment }
{
    place_near(
        receiver.initial.unwrap_or(0),
        u64::from(receiver.due),
        segment.acknowledgement,
    )
}

/// The place of the receiver's image that a segment acknowledges; 0 for one before its first.
pub fn place_acknowledged(receiver: Extent, segment: Arrival) -> u64
    ensures { result ≡ place_acknowledged receiver segment }
{
    let place = acknowledged_at(receiver, segment);
    (u64::from(receiver.due) + place.after).saturating_sub(place.before)
}

fn gap(sender: Extent, segment: Arrival) -> bool
    ensures { result ≡ gap sender segment }
{
    !segment.flags.syn
        && sender.initial.is_some()
        && u64::from(sender.ended) < start_at(sender, segment).after
}

fn past_end(sender: Extent, segment: Arrival) -> bool
    ensures { result ≡ past_end sender segment }
{
    let start = start_at(sender, segment);
    let end = start.after + u64::from(segment.count);
    is_data(segment)
        && ((sender.ended && 0 < segment.count && start.before < end)
            || (sender.ended && segment.flags.fin && end != start.before)
            || (!sender.ended && segment.flags.fin && end < start.before))
}

fn ack_ahead(receiver: Extent, segment: Arrival) -> bool
    ensures { result ≡ ack_ahead receiver segment }
{
    if segment.flags.syn && segment.flags.ack {
        segment.acknowledgement != number_at(receiver.initial.unwrap_or(0), 0)
    } else {
        segment.flags.ack
            && receiver.initial.is_some()
            && u64::from(receiver.ended) < acknowledged_at(receiver, segment).after
    }
}

fn stream_limit(sender: Extent, segment: Arrival) -> bool
    ensures { result ≡ stream_limit sender segment }
{
    let taken = u64::from(segment.count).saturating_sub(start_at(sender, segment).before);
    is_data(segment) && STREAM_LIMIT <= u64::from(sender.octets) + taken
}

fn backlog(sender: Extent, segment: Arrival) -> bool
    ensures { result ≡ backlog sender segment }
{
    let added = u64::from(segment.count).saturating_sub(start_at(sender, segment).before);
    is_data(segment) && 0 < added && (MOST_RECENT as u64) < u64::from(sender.recent) + added
}

/// Why a segment of a host is refused: the first reason that holds, in the order of `Refusal`. None where it passes. It goes by
/// what is known of the sender, of the receiver and of the segment, and by whether the segment repeats unlike.
#[inline(always)]
pub fn refusal(
    from: Host,
    sender: Extent,
    receiver: Extent,
    segment: Arrival,
    unlike: bool,
) -> Option<Refusal>
    ensures { result ≡ refusal_of from sender receiver segment unlike }
{
    if no_session(sender, receiver, segment) {
        return Some(Refusal::NoSession);
    }
    if syn_data(segment) {
        return Some(Refusal::SynData);
    }
    if syn_in_session(from, sender, segment) {
        return Some(Refusal::SynInSession);
    }
    if no_ack(segment) {
        return Some(Refusal::NoAck);
    }
    if gap(sender, segment) {
        return Some(Refusal::Gap);
    }
    if past_end(sender, segment) {
        return Some(Refusal::PastEnd);
    }
    if ack_ahead(receiver, segment) {
        return Some(Refusal::AckAhead);
    }
    if is_data(segment) && unlike {
        return Some(Refusal::Unlike);
    }
    if stream_limit(sender, segment) {
        return Some(Refusal::StreamLimit);
    }
    if backlog(sender, segment) {
        return Some(Refusal::Backlog);
    }
    None
}
