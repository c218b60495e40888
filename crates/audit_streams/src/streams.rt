// A session over whole lists.
ghost use Rattle.std.specs.Prelude.{◌≡◌, ◌≤◌, ◌<◌, ◌+◌, ◌-◌, ◌^◌, ◌++◌, ◌∷◌, ℕ, List, slice_get, false, true, [], length, drop, min, max, None, Some, IfOk, OnOk};
ghost use Rattle.gate_base.specs.declared.host.Host.TheVariants.{Client, Server};
ghost use Rattle.dialogue.specs.Prelude.{image, is_listed, listed_image, ReadAlike, AllUnitsListed, AreImages};
ghost use Rattle.dialogue.specs.declared.TheConstants.{MOST_ENTRIES};
ghost use Rattle.tcp_segments.specs.Prelude.{flags_of, flags_octet};
ghost use Rattle.stream_model.specs.Prelude.{own, arrival, extent, start_of, repeats_unlike, segment_in, refusal_of, segment_refusal, session_next, session_inner, session_open, session_ends, taken, acknowledged, own_after, other_after, standing, limit_of, acknowledgement_to, reset_sent, other_sent, sent, session_sent, ends_by};
ghost use Rattle.stream_model.specs.Goings.{sent_with};
ghost use Rattle.audit_streams.specs.Hosts.{session_of, unheard, held_in};
ghost use Rattle.audit_streams.specs.Inside.Hosts.{sender_of};
ghost use Rattle.audit_streams.specs.Known.{entries_of};
ghost use Rattle.audit_streams.specs.Sending.{CanTake, handed};

use crate::host::WholeStream;
use crate::sent::Sent;
use dialogue::{Dialogue, Learns, UnitImage};
use gate_base::{Addr, Host, OutOfMemory};
use std::alloc::Global;
use std::marker::Model;
use stream_model::{
    Arrival, Going, LEAST_PIECE, Stands, acknowledgement_to, going_out, going_reset, going_syn,
    inner_number, place_acknowledged, refusal, start_at,
};
use tcp_segments::{DEFAULT_SEGMENT_SIZE, MOST_PAYLOAD, TcpView, flags_octet, flags_of};
use verdicts::Refusal;

/// A session that keeps all octets of both hosts, what their octets become on the way, and where units with another image stand. It
/// takes some two octets of memory for each octet, and 16 for each such unit.
#[derive(Drop)]
pub struct WholeStreams<C: Dialogue, S: Dialogue> {
    alloc: Global,
    client: WholeStream<C>,
    server: WholeStream<S>,
}

impl<C: Dialogue, S: Dialogue> Model for WholeStreams<C, S> {
    ghost use Rattle.audit_streams.specs.Hosts.{HeardStreams};

    ghost Value = { HeardStreams C S };

    ghost view = { λ a. record { client_dialogue = a.client.dialogue; server_dialogue = a.server.dialogue; client = a.client.heard; server = a.server.heard } };
}

impl<C: Dialogue, S: Dialogue> WholeStreams<C, S> {
    /// The session that a client's first SYN makes, by its initial number and maximum segment size. It takes no memory.
    pub fn new(alloc: Global, client: C, server: S, initial: u32, mss: u16) -> WholeStreams<C, S>
        ensures { result
            ≡ record {
              client_dialogue = client;
              server_dialogue = server;
              client = unheard (Some initial) mss;
              server = unheard None DEFAULT_SEGMENT_SIZE;
            } }
    {
        WholeStreams {
            alloc,
            client: WholeStream::new(alloc, client, Some(initial), mss),
            server: WholeStream::new(alloc, server, None, DEFAULT_SEGMENT_SIZE),
        }
    }

    /// Why a segment of a host is refused; None where it passes.
    pub fn refusal(&self, from: Host, segment: &TcpView) -> Option<Refusal>
        ensures { result
            ≡ segment_refusal from (session_of C.meaning S.meaning self.now)
            (segment_in segment.now) }
    {
        match from {
            Host::Client => refusal_between(Host::Client, &self.client, &self.server, segment),
            Host::Server => refusal_between(Host::Server, &self.server, &self.client, segment),
        }
    }

    /// Passes a segment of a host: what is sent for it, or OutOfMemory. The segment must pass. After OutOfMemory the session
    /// must not be used again.
    pub fn step(&mut self, from: Host, segment: &TcpView) -> Result<Sent, OutOfMemory>
        requires passes { segment_refusal from
            (session_of C.meaning S.meaning self.old) (segment_in segment.now)
            ≡ None }
        ensures next { OnOk result (session_of C.meaning S.meaning self.new
            ≡ session_next from (session_of C.meaning S.meaning self.old)
            (segment_in segment.now)) }
        ensures client { self.new.client_dialogue ≡ self.old.client_dialogue }
        ensures server { self.new.server_dialogue ≡ self.old.server_dialogue }
        ensures sent { IfOk result (λ s. s
            ≡ handed
            (session_sent from (session_of C.meaning S.meaning self.old)
            (segment_in segment.now)) (session_ends from
            (session_of C.meaning S.meaning self.old) (segment_in segment.now))) }
    {
        match from {
            Host::Client => pass(self.alloc, &mut self.client, &mut self.server, segment),
            Host::Server => pass(self.alloc, &mut self.server, &mut self.client, segment),
        }
    }

    /// What the sequence number of a datagram that an ICMP error brings back was at the host that sent it.
    pub fn inner(&self, host: Host, sequence: u32) -> Option<u32>
        ensures { result
            ≡ session_inner host (session_of C.meaning S.meaning self.now) sequence }
    {
        match host {
            Host::Client => inner_number(&self.client, sequence),
            Host::Server => inner_number(&self.server, sequence),
        }
    }

    /// How many changed units are not acknowledged whole: the greater number of both hosts.
    pub fn pending(&self) -> usize
        ensures { result ≡ session_open (session_of C.meaning S.meaning self.now) }
    {
        self.client.pending().max(self.server.pending())
    }

    /// The held rest of a host.
    pub fn rest(&self, host: Host) -> &[u8]
        ensures { result.now
            ≡ held_in (own host (session_of C.meaning S.meaning self.now)) }
    {
        match host {
            Host::Client => self.client.rest(),
            Host::Server => self.server.rest(),
        }
    }

    /// How many octets of a segment that passes its sender has sent before.
    pub fn repeated(&self, from: Host, segment: &TcpView) -> usize
        ensures { result
            ≡ min (length segment.now.payload) (start_of
            (own from (session_of C.meaning S.meaning self.now))
            (segment_in segment.now)).before }
    {
        let sender = match from {
            Host::Client => self.client.extent(),
            Host::Server => self.server.extent(),
        };
        let start = start_at(sender, arrival_of(segment));
        segment.payload().len().min(start.before as usize)
    }
}

impl<C: Learns, S: Learns> WholeStreams<C, S> {
    /// What a host's list has of this address: `Some(image)` for an entry with an image, `Some(None)` for an address that is
    /// kept, and None without an entry.
    pub fn image_of(&self, host: Host, address: Addr) -> Option<Option<Addr>>
        ensures { result
            ≡ listed_image (entries_of C.entries S.entries host self.now) address.0 }
    {
        match host {
            Host::Client => self.client.image_of(address),
            Host::Server => self.server.image_of(address),
        }
    }

    /// The number of entries of a host's list.
    pub fn listed(&self, host: Host) -> usize
        ensures { result ≡ length (entries_of C.entries S.entries host self.now) }
    {
        match host {
            Host::Client => self.client.listed(),
            Host::Server => self.server.listed(),
        }
    }

    /// The entry at a place of a host's list. The place must lie below `listed`.
    pub fn entry(&self, host: Host, place: usize) -> (Addr, Option<Addr>)
        requires { place < length (entries_of C.entries S.entries host self.now) }
        ensures { slice_get (entries_of C.entries S.entries host self.now) place
            ≡ Some result }
    {
        match host {
            Host::Client => self.client.entry(place),
            Host::Server => self.server.entry(place),
        }
    }

    /// Appends an entry to a host's list. The address must not be known, and there must be fewer than `MOST_ENTRIES`. All addresses
    /// in the whole units that were heard of that host so far must be listed already: its octets then read as they did.
    pub fn learn(&mut self, host: Host, address: Addr, image: Option<Addr>)
        requires unknown { is_listed (entries_of C.entries S.entries host self.old)
            address.0 ≡ false }
        requires few { length (entries_of C.entries S.entries host self.old)
            < MOST_ENTRIES }
        requires client_known { host ≡ Client
            → AllUnitsListed C.addresses (C.meaning self.old.client_dialogue)
            (C.entries self.old.client_dialogue) self.old.client.octets }
        requires server_known { host ≡ Server
            → AllUnitsListed S.addresses (S.meaning self.old.server_dialogue)
            (S.entries self.old.server_dialogue) self.old.server.octets }
        ensures entries { entries_of C.entries S.entries host self.new
            ≡ entries_of C.entries S.entries host self.old ++ (address, image) ∷ [] }
        ensures client_heard { self.new.client ≡ self.old.client }
        ensures server_heard { self.new.server ≡ self.old.server }
        ensures server { host ≡ Client
            → self.new.server_dialogue ≡ self.old.server_dialogue }
        ensures client { host ≡ Server
            → self.new.client_dialogue ≡ self.old.client_dialogue }
        ensures client_alike { (s : List ℕ)
            → host ≡ Client
            → AllUnitsListed C.addresses (C.meaning self.old.client_dialogue)
            (C.entries self.old.client_dialogue) s
            → ReadAlike (C.meaning self.old.client_dialogue)
            (C.meaning self.new.client_dialogue) s }
        ensures server_alike { (s : List ℕ)
            → host ≡ Server
            → AllUnitsListed S.addresses (S.meaning self.old.server_dialogue)
            (S.entries self.old.server_dialogue) s
            → ReadAlike (S.meaning self.old.server_dialogue)
            (S.meaning self.new.server_dialogue) s }
    {
        match host {
            Host::Client => self.client.learn(address, image),
            Host::Server => self.server.learn(address, image),
        }
    }

    /// Takes the images of the units that a host completes next, in their order, so that they needn't be made again. Learning
    /// drops them.
    pub fn expect(&mut self, host: Host, images: Vec<UnitImage>)
        requires client { host ≡ Client
            → AreImages (C.meaning self.old.client_dialogue) images.items }
        requires server { host ≡ Server
            → AreImages (S.meaning self.old.server_dialogue) images.items }
        ensures { self.new ≡ self.old }
    {
        match host {
            Host::Client => self.client.expect(images),
            Host::Server => self.server.expect(images),
        }
    }
}

fn refusal_between<A: Dialogue, B: Dialogue>(
    from: Host,
    own: &WholeStream<A>,
    other: &WholeStream<B>,
    segment: &TcpView,
) -> Option<Refusal>
    ensures { result
        ≡ refusal_of from (extent (sender_of A.meaning own.now))
        (extent (sender_of B.meaning other.now))
        (arrival (segment_in segment.now))
        (repeats_unlike (sender_of A.meaning own.now) (segment_in segment.now)) }
{
    let sender = own.extent();
    let arrival = arrival_of(segment);
    let unlike = own.is_unlike(start_at(sender, arrival).before, segment.payload());
    refusal(from, sender, other.extent(), arrival, unlike)
}

fn pass<A: Dialogue, B: Dialogue>(
    alloc: Global,
    own: &mut WholeStream<A>,
    other: &mut WholeStream<B>,
    segment: &TcpView,
) -> Result<Sent, OutOfMemory>
    requires opens { (flags_of segment.now.flags).syn ≡ true
        → (flags_of segment.now.flags).reset ≡ false }
    requires can { (flags_of segment.now.flags).syn ≡ false
        → (flags_of segment.now.flags).reset ≡ false
        → CanTake (sender_of A.meaning own.old) (segment_in segment.now) }
    ensures own { OnOk result (sender_of A.meaning own.new
        ≡ own_after (sender_of A.meaning own.old) (segment_in segment.now)) }
    ensures other { OnOk result (sender_of B.meaning other.new
        ≡ other_after (sender_of B.meaning other.old) (segment_in segment.now)) }
    ensures own_dialogue { own.new.dialogue ≡ own.old.dialogue }
    ensures other_dialogue { other.new.dialogue ≡ other.old.dialogue }
    ensures sent { IfOk result (λ s. s
        ≡ handed
        (sent (sender_of A.meaning own.old) (sender_of B.meaning other.old)
        (segment_in segment.now))
        (ends_by (standing (sender_of A.meaning own.old)) (segment_in segment.now))) }
{
    let flags = flags_of(segment.flags());
    let limit = limit_of(other.mss(), segment.options());
    if flags.syn {
        own.open(segment.sequence(), segment.mss());
        return hand_on(alloc, own, going_syn(segment, limit), false);
    }
    if flags.reset {
        return pass_reset(alloc, own, other, segment, limit);
    }
    pass_data(alloc, own, other, segment, limit)
}

// An RST ends the session, unless it stands before the end of its sender's octets.
fn pass_reset<A: Dialogue, B: Dialogue>(
    alloc: Global,
    own: &WholeStream<A>,
    other: &WholeStream<B>,
    segment: &TcpView,
    limit: usize,
) -> Result<Sent, OutOfMemory>
    requires reset { (flags_of segment.now.flags).reset ≡ true }
    requires limit { limit
        ≡ limit_of other.now.heard.mss (segment_in segment.now) }
    ensures { IfOk result (λ s. s
        ≡ handed
        (reset_sent (standing (sender_of A.meaning own.now))
        (standing (sender_of B.meaning other.now)) (segment_in segment.now)
        (limit_of other.now.heard.mss (segment_in segment.now)))
        (ends_by (standing (sender_of A.meaning own.now))
        (segment_in segment.now))) }
{
    let start = start_at(own.extent(), arrival_of(segment));
    let going = going_reset(own, other, start, segment, limit);
    let ends = own.initial().is_none() || start.before == 0;
    hand_on(alloc, own, going, ends)
}

// Takes a segment with neither SYN nor RST.
fn pass_data<A: Dialogue, B: Dialogue>(
    alloc: Global,
    own: &mut WholeStream<A>,
    other: &mut WholeStream<B>,
    segment: &TcpView,
    limit: usize,
) -> Result<Sent, OutOfMemory>
    requires can { CanTake (sender_of A.meaning own.old) (segment_in segment.now) }
    requires limit { limit
        ≡ limit_of other.old.heard.mss (segment_in segment.now) }
    ensures own { OnOk result (sender_of A.meaning own.new
        ≡ taken (sender_of A.meaning own.old) (segment_in segment.now)) }
    ensures other { OnOk result (sender_of B.meaning other.new
        ≡ acknowledged (sender_of B.meaning other.old) (segment_in segment.now)) }
    ensures own_dialogue { own.new.dialogue ≡ own.old.dialogue }
    ensures other_dialogue { other.new.dialogue ≡ other.old.dialogue }
    ensures sent { IfOk result (λ s. s
        ≡ handed
        (other_sent (extent (sender_of A.meaning own.old))
        (standing (taken (sender_of A.meaning own.old) (segment_in segment.now)))
        (start_of (sender_of A.meaning own.old) (segment_in segment.now))
        (segment_in segment.now) (acknowledgement_to (standing (acknowledged
        (sender_of B.meaning other.old) (segment_in segment.now))))
        (limit_of other.old.heard.mss (segment_in segment.now))) false) }
{
    let arrival = arrival_of(segment);
    let old = own.extent();
    let start = start_at(old, arrival);
    let fin = flags_of(segment.flags()).fin;
    own.take(alloc, from_place(segment.payload(), start.before), fin)?;
    other.acknowledge(place_acknowledged(other.extent(), arrival));
    let acknowledgement = acknowledgement_to(other);
    let going = going_out(old, own, start, segment, acknowledgement, limit);
    hand_on(alloc, own, going, false)
}

/// The octets from a place on.
fn from_place<'a>(octets: &'a [u8], place: u64) -> &'a [u8]
    ensures { result.now ≡ drop place octets.now }
{
    let start = place.min(octets.len() as u64);
    &octets[start as usize..]
}

// What goes out, with its octets out of the image of the host that sends them.
fn hand_on<A: Dialogue>(
    alloc: Global,
    own: &WholeStream<A>,
    going: Going,
    ends: bool,
) -> Result<Sent, OutOfMemory>
    requires ecn { going.flags.ecn ≤ 3 }
    requires within { going.past
        ≤ length (image (A.meaning own.now.dialogue) own.now.heard.octets) }
    ensures { IfOk result (λ s. s
        ≡ handed (sent_with (standing (sender_of A.meaning own.now)) going) ends) }
{
    let octets = own.copy_image(alloc, going.first, going.past)?;
    Ok(Sent {
        sequence: going.sequence,
        acknowledgement: going.acknowledgement,
        flags: flags_octet(going.flags),
        limit: going.limit,
        octets,
        ends,
    })
}

/// The largest piece: what the receiver takes, at least `LEAST_PIECE`, and what fits a datagram, less the options' octets.
fn limit_of(mss: u16, options: &[u8]) -> usize
    ensures { result ≡ min (max mss LEAST_PIECE) MOST_PAYLOAD - length options.now }
{
    usize::from(mss)
        .max(LEAST_PIECE)
        .min(MOST_PAYLOAD)
        .saturating_sub(options.len())
}

/// What a refusal needs to know of a segment.
fn arrival_of(segment: &TcpView) -> Arrival
    ensures { result ≡ arrival (segment_in segment.now) }
{
    Arrival {
        sequence: segment.sequence(),
        acknowledgement: segment.acknowledgement(),
        flags: flags_of(segment.flags()),
        count: segment.payload().len() as u32,
    }
}
