// What goes out for a segment that passes, by what its sender and its receiver answer, however their octets are kept.
ghost use Rattle.std.specs.Prelude.{◌≡◌, ◌≤◌, ◌<◌, ◌+◌, ◌-◌, ◌^◌, ℕ, cond, nat_le, length};
ghost use Rattle.stream_model.specs.Numbers.{number_at, number_after};
ghost use Rattle.stream_model.specs.Session.{segment_in, arrival, start_at};
ghost use Rattle.stream_model.specs.Standing.{Standing};
ghost use Rattle.stream_model.specs.Sending.{low, high, sends_end, bare_offset, acknowledgement_to, syn_sent, other_sent, reset_sent, inner_number, inner_by};
ghost use Rattle.stream_model.specs.Goings.{sent_with};

use crate::numbers::{Offset, number_after, number_at, place_near};
use crate::refusals::Extent;
use tcp_segments::{Flags, TcpView, flags_of};

/// What a step asks of a sender.
pub trait Stands {
    /// All that it answers.
    ghost standing: { Self → Standing };

    /// Its initial number, if it is known.
    fn initial(&self) -> Option<u32>
        ensures { result ≡ (standing self.now).extent.initial };

    /// How many octets it has sent so far.
    fn octets(&self) -> u32
        ensures { result ≡ (standing self.now).extent.octets };

    /// How many octets of their image are due.
    fn due(&self) -> u32
        ensures { result ≡ (standing self.now).extent.due };

    /// Whether its octets have ended.
    fn has_ended(&self) -> bool
        ensures { result ≡ (standing self.now).extent.ended };

    /// The first place of its image that is not acknowledged.
    fn acked(&self) -> u64
        ensures { result ≡ (standing self.now).acked };

    /// How many octets have all their image places below a place.
    fn back(&self, place: u64) -> u64
        ensures { result ≡ (standing self.now).back place };

    /// The first image place of an octet.
    fn fore(&self, place: u64) -> u64
        ensures { result ≡ (standing self.now).fore place };

    /// The place behind the image of the octets before one.
    fn rear(&self, end: u64) -> u64
        ensures { result ≡ (standing self.now).rear end };
}

/// What goes out for a segment, but for the octets. They are those of the image from `first` to before `past`. If there are none, it is
/// one segment without octets.
#[derive(Clone, Copy)]
pub struct Going {
    pub sequence: u32,
    pub acknowledgement: u32,
    pub flags: Flags,
    pub limit: usize,
    pub first: u64,
    pub past: u64,
}

/// What goes out for a segment with neither SYN nor RST, by what was known of its sender before it, where it starts, and the sender
/// after it.
#[inline(always)]
pub fn going_out<S: Stands>(
    old: Extent,
    new: &S,
    start: Offset,
    segment: &TcpView,
    acknowledgement: u32,
    limit: usize,
) -> Going
    requires { start.after < 2 ^ 32 }
    ensures sent { other_sent old (S.standing new.now) start (segment_in segment.now)
        acknowledgement limit
        ≡ sent_with (S.standing new.now) result }
    ensures ecn { result.flags.ecn ≤ 3 }
    ensures first { result.first ≡ low old (S.standing new.now) start }
    ensures past { let g = segment_in segment.now in
        result.past
        ≡ high old (S.standing new.now) start (length g.octets) g.flags.fin }
{
    let flags = flags_of(segment.flags());
    let fin = sends_end(new, flags.fin);
    let first = first_place(old, new, start);
    let past = past_place(old, new, start, segment.payload().len(), flags.fin);
    let initial = new.initial().unwrap_or(0);
    if first < past {
        return Going {
            sequence: number_after(initial, first + 1),
            acknowledgement,
            flags: Flags { fin, ..flags },
            limit,
            first,
            past,
        };
    }
    let offset = if fin {
        u64::from(new.due()) + 1
    } else {
        bare_offset(new, start)
    };
    Going {
        sequence: number_after(initial, offset),
        acknowledgement,
        flags: Flags {
            fin,
            push: false,
            ..flags
        },
        limit,
        first,
        past,
    }
}

/// What goes out for a SYN, whoever sends it.
#[inline(always)]
pub fn going_syn(segment: &TcpView, limit: usize) -> Going
    ensures sent { (s : Standing)
        → syn_sent (segment_in segment.now) limit ≡ sent_with s result }
    ensures ecn { result.flags.ecn ≤ 3 }
    ensures none { result.past ≡ 0 }
{
    Going {
        sequence: segment.sequence(),
        acknowledgement: segment.acknowledgement(),
        flags: Flags {
            push: false,
            ..flags_of(segment.flags())
        },
        limit,
        first: 0,
        past: 0,
    }
}

/// What goes out for an RST with this start.
#[inline(always)]
pub fn going_reset<S: Stands, R: Stands>(
    own: &S,
    other: &R,
    start: Offset,
    segment: &TcpView,
    limit: usize,
) -> Going
    requires near { start.after < 2 ^ 32 }
    requires at { start
        ≡ start_at (S.standing own.now).extent (arrival (segment_in segment.now)) }
    ensures sent { reset_sent (S.standing own.now) (R.standing other.now)
        (segment_in segment.now) limit
        ≡ sent_with (S.standing own.now) result }
    ensures ecn { result.flags.ecn ≤ 3 }
    ensures none { result.past ≡ 0 }
{
    let flags = flags_of(segment.flags());
    let sequence = match own.initial() {
        Some(initial) => number_after(initial, bare_offset(own, start)),
        None => segment.sequence(),
    };
    let acknowledgement = if flags.ack && other.initial().is_some() {
        acknowledgement_to(other)
    } else {
        segment.acknowledgement()
    };
    Going {
        sequence,
        acknowledgement,
        flags: Flags {
            fin: false,
            push: false,
            ..flags
        },
        limit,
        first: 0,
        past: 0,
    }
}

/// The number that acknowledges the octets whose images are acknowledged.
pub fn acknowledgement_to<S: Stands>(receiver: &S) -> u32
    ensures { result ≡ acknowledgement_to (S.standing receiver.now) }
{
    number_at(
        receiver.initial().unwrap_or(0),
        receiver.back(receiver.acked()),
    )
}

/// The sender's own number for a number of its image, if the place of that was sent.
pub fn inner_number<S: Stands>(sender: &S, sequence: u32) -> Option<u32>
    ensures { result
        ≡ inner_by (S.standing sender.now) (S.standing sender.now).extent.initial
        sequence }
{
    let initial = sender.initial()?;
    let place = place_near(initial, u64::from(sender.due()), sequence);
    if u64::from(sender.has_ended()) < place.after {
        return None;
    }
    Some(number_sent(sender, initial, place))
}

// Its own number of a place of its image that was sent.
fn number_sent<S: Stands>(sender: &S, initial: u32, place: Offset) -> u32
    requires { place.after < 2 ^ 32 }
    ensures { result ≡ inner_number (S.standing sender.now) initial place }
{
    let at = u64::from(sender.due()) + place.after;
    if place.before <= at && sender.acked() <= at - place.before {
        return number_at(initial, sender.back(at - place.before));
    }
    number_after(initial, sender.back(sender.acked()))
}

// The end goes out for a segment with FIN, as long as it is not acknowledged.
fn sends_end<S: Stands>(new: &S, fin: bool) -> bool
    ensures { result ≡ sends_end (S.standing new.now) fin }
{
    fin && new.acked() <= u64::from(new.due())
}

// The first image place that goes out.
fn first_place<S: Stands>(old: Extent, new: &S, start: Offset) -> u64
    requires { start.after < 2 ^ 32 }
    ensures { result ≡ low old (S.standing new.now) start }
{
    let place = (u64::from(old.octets) + start.after).saturating_sub(start.before);
    u64::from(old.due).min(new.fore(place.max(new.back(new.acked()))))
}

// The image place behind the last that goes out.
fn past_place<S: Stands>(old: Extent, new: &S, start: Offset, count: usize, fin: bool) -> u64
    requires near { start.after < 2 ^ 32 }
    requires few { count < 2 ^ 32 }
    ensures { result ≡ high old (S.standing new.now) start count fin }
{
    let grows = old.octets < new.octets() || (new.has_ended() && !old.ended);
    if grows || sends_end(new, fin) {
        return u64::from(new.due());
    }
    let place = (u64::from(old.octets) + start.after + count as u64).saturating_sub(start.before);
    new.rear(place.max(new.back(new.acked())))
}

// Where a segment without octets stands, by where the segment starts for which it goes out.
fn bare_offset<S: Stands>(new: &S, start: Offset) -> u64
    requires { start.after < 2 ^ 32 }
    ensures { result ≡ bare_offset (S.standing new.now) start }
{
    if start.before == 0 {
        return u64::from(new.due()) + start.after + 1;
    }
    new.acked()
}
