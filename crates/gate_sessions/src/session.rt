// A session of one of two kinds.
ghost use Rattle.std.specs.Prelude.{◌≡◌, ◌≤◌, ◌<◌, ℕ, Option, true, [], length, map, slice_get, Some, None, IfOk, OnOk, OnErr};
ghost use Rattle.gate_base.specs.declared.address.Addr.{Addr};
ghost use Rattle.dialogue.specs.Prelude.{AreImages};
ghost use Rattle.dialogue.specs.declared.TheConstants.{MOST_ENTRIES};
ghost use Rattle.dns_stream.specs.Prelude.{dns_units};
ghost use Rattle.stream_model.specs.Prelude.{segment_in, arrival, is_data};
ghost use Rattle.stream_gate.specs.Prelude.{nothing_pushed};
ghost use Rattle.compact_stream.specs.Prelude.{kept_made};
ghost use Rattle.gate_model.specs.Prelude.{addresses_in, segment_of, sent_as, tcp_of};
ghost use Rattle.gate_sessions.specs.Compact.{compact_rules};
ghost use Rattle.dns_plans.specs.Prelude.{whole_units, beside, entered_all};
ghost use Rattle.gate_sessions.specs.Sessions.{KeptMayWant};

use crate::kinds::{DnsSession, FtpSession, SessionKind};
use crate::learned::step_units;
use crate::segments::put_segments;
use dns_plans::{Completed, Entry, Session, UnitOctets};
use dns_stream::DnsUnits;
use event_outbox::{Datagrams, Scratch, Segment};
use ftp_lines::{ClientLines, ServerLines};
use gate_base::{Addr, DNS_PORT, Host, OutOfMemory, Pair};
use shift_ledger::Recent;
use std::alloc::Global;
use std::marker::Model;
use stream_gate::{FirstSyn, StreamGate};
use tcp_segments::{TcpView, flags_of};
use verdicts::Refusal;

/// A segment that passes: which host sends it, and the addresses between which it goes on.
#[derive(Clone, Copy)]
pub struct Passing<'a> {
    pub from: Host,
    pub segment: &'a Segment<'a>,
    pub source: Addr,
    pub destination: Addr,
}

/// A session of one of two kinds: of FTP, which has no lists, or of DNS. It is seen as what is kept of it, and answers as the rules of
/// kept sessions say.
#[derive(Drop)]
pub struct AnySession {
    pair: Pair,
    kind: SessionKind,
}

impl Model for AnySession {
    ghost use Rattle.gate_sessions.specs.Compact.{CompactSession};
    ghost use Rattle.gate_sessions.specs.Inside.Sessions.{session_of, IsOfPair, IsSession};

    ghost Value = { CompactSession };

    ghost view = { λ session. session_of session.pair session.kind };

    ghost invariant = { λ session. IsOfPair session.pair session.kind × IsSession (session_of session.pair session.kind) };
}

fn ftp_session(alloc: Global, pair: Pair, initial: u32, mss: u16) -> Result<FtpSession, OutOfMemory>
    ensures { IfOk result (λ session. session
        ≡ record {
          client_dialogue = record { pair = pair };
          server_dialogue = record { pair = pair };
          kept = kept_made initial mss nothing_pushed nothing_pushed;
        }) }
{
    let from_client = Recent::new(alloc)?;
    let from_server = Recent::new(alloc)?;
    Ok(StreamGate::new(
        alloc,
        ClientLines { pair },
        ServerLines { pair },
        FirstSyn { initial, mss },
        from_client,
        from_server,
    ))
}

fn dns_session(alloc: Global, initial: u32, mss: u16) -> Result<DnsSession, OutOfMemory>
    ensures { IfOk result (λ session. session
        ≡ record {
          client_dialogue = [];
          server_dialogue = [];
          kept = kept_made initial mss nothing_pushed nothing_pushed;
        }) }
{
    let client = DnsUnits::new(alloc)?;
    let server = DnsUnits::new(alloc)?;
    let from_client = Recent::new(alloc)?;
    let from_server = Recent::new(alloc)?;
    Ok(StreamGate::new(
        alloc,
        client,
        server,
        FirstSyn { initial, mss },
        from_client,
        from_server,
    ))
}

impl Session for AnySession {
    ghost use Rattle.gate_sessions.specs.Compact.{compact_rules};

    ghost rules = { compact_rules };

    fn inner(&self, host: Host, sequence: u32) -> Option<u32> {
        match &self.kind {
            SessionKind::Lines(session) => session.inner(host, sequence),
            SessionKind::Units(session) => session.inner(host, sequence),
        }
    }

    fn refusal(&self, from: Host, segment: &TcpView<'_>) -> Option<Refusal> {
        match &self.kind {
            SessionKind::Lines(session) => session.refusal(from, segment),
            SessionKind::Units(session) => session.refusal(from, segment),
        }
    }

    fn listed(&self, host: Host) -> usize {
        match &self.kind {
            SessionKind::Lines(_) => 0,
            SessionKind::Units(session) => session.listed(host),
        }
    }

    fn entry(&self, host: Host, place: usize) -> Entry {
        match &self.kind {
            SessionKind::Lines(_) => unreachable!(),
            SessionKind::Units(session) => session.entry(host, place),
        }
    }

    fn image_of(&self, host: Host, address: Addr) -> Option<Option<Addr>> {
        match &self.kind {
            SessionKind::Lines(_) => None,
            SessionKind::Units(session) => session.image_of(host, address),
        }
    }

    fn put_octets(&self, from: Host, segment: &TcpView<'_>, octets: &mut UnitOctets) {
        octets.clear();
        if let SessionKind::Units(session) = &self.kind {
            if is_data(segment) {
                let repeated = session.repeated(from, segment);
                octets.join(session.rest(from), &segment.payload()[repeated..]);
            }
        }
    }
}

impl AnySession {
    /// The session that a client's first SYN to a port of the server makes, by the SYN's number and maximum segment size. On the
    /// port of DNS it is one of DNS, and else one of FTP.
    pub fn opened(
        alloc: Global,
        port: u16,
        pair: Pair,
        initial: u32,
        mss: u16,
    ) -> Result<AnySession, OutOfMemory>
        ensures { IfOk result
            (λ session. session ≡ compact_rules.made port pair initial mss) }
    {
        if port == DNS_PORT {
            let session = dns_session(alloc, initial, mss)?;
            return Ok(AnySession {
                pair,
                kind: SessionKind::Units(session),
            });
        }
        Ok(AnySession {
            pair,
            kind: SessionKind::Lines(ftp_session(alloc, pair, initial, mss)?),
        })
    }

    /// How many changed lines or units wait in it to be acknowledged.
    pub fn pending(&self) -> u64
        ensures { result ≡ compact_rules.pending self.now }
    {
        match &self.kind {
            SessionKind::Lines(session) => session.pending() as u64,
            SessionKind::Units(session) => session.pending() as u64,
        }
    }

    /// Passes a segment: enters what its units name into the list of its sender, puts what goes out into the outbox, and says whether the
    /// session ends. The entries must be the addresses in these units beside what they are called. The list must not get longer than
    /// 256 entries, and each image must be that of its unit by the list with these entries. Where there is too little memory nothing
    /// has changed.
    pub fn step(
        &mut self,
        passing: &Passing<'_>,
        completed: Completed<'_>,
        outbox: &mut Datagrams,
        scratch: &mut Scratch,
    ) -> Result<bool, OutOfMemory>
        requires few { length (entered_all
            (compact_rules.listed passing.now.from self.old)
            completed.entries.now) ≤ MOST_ENTRIES }
        requires images { AreImages
            (dns_units (entered_all (compact_rules.listed passing.now.from self.old)
            completed.entries.now)) completed.images.items }
        requires named { (image : Addr → Option Addr)
            × (completed.entries.now
            ≡ beside image (addresses_in (compact_rules.units
            passing.now.from self.old
            (segment_of passing.now.segment.now.datagram.now)))) }
        requires empty { outbox.old ≡ [] }
        requires segment { passing.now.segment.now.tcp.now
            ≡ tcp_of passing.now.segment.now.datagram.now }
        requires alive { 1 ≤ passing.now.segment.now.datagram.now.lifetime }
        requires passes { compact_rules.refusal passing.now.from self.old
            (segment_of passing.now.segment.now.datagram.now) ≡ None }
        ensures next { (image : Addr → Option Addr)
            → completed.entry.entries.now
            ≡ beside image (addresses_in (compact_rules.units
            passing.now.from self.old
            (segment_of passing.now.segment.now.datagram.now)))
            → OnOk result (self.new
            ≡ compact_rules.next image passing.now.from self.old
            (segment_of passing.now.segment.now.datagram.now)) }
        ensures out { (image : Addr → Option Addr)
            → completed.entry.entries.now
            ≡ beside image (addresses_in (compact_rules.units
            passing.now.from self.old
            (segment_of passing.now.segment.now.datagram.now)))
            → OnOk result (outbox.new
            ≡ map
            (sent_as passing.now.segment.now.datagram.now passing.now.source.0
            passing.now.destination.0) (compact_rules.out image
            passing.now.from self.old
            (segment_of passing.now.segment.now.datagram.now))) }
        ensures over { IfOk result (λ b. b
            ≡ compact_rules.ends passing.now.from self.old
            (segment_of passing.now.segment.now.datagram.now)) }
        ensures memory { OnErr result (KeptMayWant passing.now.from self.old
            (segment_of passing.now.segment.now.datagram.now)) }
        ensures same { OnErr result (self.new ≡ self.old) }
        ensures nothing { OnErr result (outbox.new ≡ []) }
    {
        match &mut self.kind {
            SessionKind::Lines(session) => return put_segments(session, passing, outbox, scratch),
            SessionKind::Units(session) => {
                return step_units(session, passing, completed, outbox, scratch);
            }
        }
    }
}

/// Whether it has neither SYN nor RST.
fn is_data(segment: &TcpView<'_>) -> bool
    ensures { result ≡ is_data (arrival (segment_in segment.now)) }
{
    let flags = flags_of(segment.flags());
    !flags.syn && !flags.reset
}
