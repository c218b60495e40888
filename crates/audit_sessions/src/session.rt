// A session of one of two kinds, over its whole lists.
ghost use Rattle.std.specs.Prelude.{◌≡◌, ◌≤◌, ◌<◌, [], Option, length, slice_get, Some, None, IfOk, OnOk};
ghost use Rattle.gate_base.specs.declared.address.Addr.{Addr};
ghost use Rattle.dialogue.specs.Prelude.{AreImages};
ghost use Rattle.dialogue.specs.declared.TheConstants.{MOST_ENTRIES};
ghost use Rattle.dns_stream.specs.Prelude.{dns_units};
ghost use Rattle.stream_model.specs.Prelude.{own, arrival, segment_in, is_data, segment_refusal};
ghost use Rattle.audit_streams.specs.Hosts.{unheard};
ghost use Rattle.audit_streams.specs.Sending.{handed};
ghost use Rattle.gate_model.specs.Prelude.{addresses_in, completed};
ghost use Rattle.dns_plans.specs.Prelude.{whole_units, beside, entered_all};
ghost use Rattle.audit_sessions.specs.Heard.{heard_rules, heard_sent};
ghost use Rattle.audit_sessions.specs.Inside.Sessions.{streams_of};

use crate::kinds::{DnsSession, FtpSession, SessionKind};
use crate::learned::step_units;
use audit_streams::{Sent, WholeStreams};
use dns_plans::{Completed, Entry, Session, UnitOctets};
use dns_stream::DnsUnits;
use ftp_lines::{ClientLines, ServerLines};
use gate_base::{Addr, DNS_PORT, Host, OutOfMemory, Pair};
use std::alloc::Global;
use std::marker::Model;
use tcp_segments::{DEFAULT_SEGMENT_SIZE, TcpView, flags_of};
use verdicts::Refusal;

/// A session of one of two kinds: of FTP, which has no lists, or of DNS. It is seen as what was heard of its hosts, and answers as the
/// rules of such sessions say.
#[derive(Drop)]
pub struct AuditedSession {
    alloc: Global,
    pair: Pair,
    kind: SessionKind,
}

impl Model for AuditedSession {
    ghost use Rattle.audit_sessions.specs.Heard.{HeardSession, IsSession};
    ghost use Rattle.audit_sessions.specs.Inside.Sessions.{session_by, IsOfPair};

    ghost Value = { HeardSession };

    ghost view = { λ session. session_by session.pair session.kind };

    ghost invariant = { λ session. IsOfPair session.pair session.kind × IsSession (session_by session.pair session.kind) };
}

/// A session of FTP.
pub fn ftp_session(alloc: Global, pair: Pair, initial: u32, mss: u16) -> FtpSession
    ensures { result
        ≡ record {
          client_dialogue = record { pair = pair };
          server_dialogue = record { pair = pair };
          client = unheard (Some initial) mss;
          server = unheard None DEFAULT_SEGMENT_SIZE;
        } }
{
    WholeStreams::new(
        alloc,
        ClientLines { pair },
        ServerLines { pair },
        initial,
        mss,
    )
}

fn dns_session(alloc: Global, initial: u32, mss: u16) -> Result<DnsSession, OutOfMemory>
    ensures { IfOk result (λ session. session
        ≡ record {
          client_dialogue = [];
          server_dialogue = [];
          client = unheard (Some initial) mss;
          server = unheard None DEFAULT_SEGMENT_SIZE;
        }) }
{
    let client = DnsUnits::new(alloc)?;
    let server = DnsUnits::new(alloc)?;
    Ok(WholeStreams::new(alloc, client, server, initial, mss))
}

impl Session for AuditedSession {
    ghost use Rattle.audit_sessions.specs.Heard.{heard_rules};

    ghost rules = { heard_rules };

    fn inner(&self, host: Host, sequence: u32) -> Option<u32> {
        match &self.kind {
            SessionKind::Lines(session) => session.inner(host, sequence),
            SessionKind::Units(session) => session.inner(host, sequence),
        }
    }

    fn refusal(&self, from: Host, segment: &TcpView<'_>) -> Option<Refusal> {
        match &self.kind {
            SessionKind::Lines(session) => session.refusal(from, segment),
            SessionKind::Units(session) => session.refusal(from, segment),
        }
    }

    fn listed(&self, host: Host) -> usize {
        match &self.kind {
            SessionKind::Lines(_) => 0,
            SessionKind::Units(session) => session.listed(host),
        }
    }

    fn entry(&self, host: Host, place: usize) -> Entry {
        match &self.kind {
            SessionKind::Lines(_) => unreachable!(),
            SessionKind::Units(session) => session.entry(host, place),
        }
    }

    fn image_of(&self, host: Host, address: Addr) -> Option<Option<Addr>> {
        match &self.kind {
            SessionKind::Lines(_) => None,
            SessionKind::Units(session) => session.image_of(host, address),
        }
    }

    fn put_octets(&self, from: Host, segment: &TcpView<'_>, octets: &mut UnitOctets) {
        octets.clear();
        if let SessionKind::Units(session) = &self.kind {
            put_units(session, from, segment, octets);
        }
    }
}

impl AuditedSession {
    /// The session that a client's first SYN to a port of the server makes, by the SYN's number and maximum segment size. On the
    /// port of DNS it is one of DNS, and else one of FTP.
    pub fn opened(
        alloc: Global,
        port: u16,
        pair: Pair,
        initial: u32,
        mss: u16,
    ) -> Result<AuditedSession, OutOfMemory>
        ensures { IfOk result
            (λ session. session ≡ heard_rules.made port pair initial mss) }
    {
        if port == DNS_PORT {
            return Ok(AuditedSession {
                alloc,
                pair,
                kind: SessionKind::Units(dns_session(alloc, initial, mss)?),
            });
        }
        Ok(AuditedSession {
            alloc,
            pair,
            kind: SessionKind::Lines(ftp_session(alloc, pair, initial, mss)),
        })
    }

    /// How many changed lines or units wait in it to be acknowledged.
    pub fn pending(&self) -> u64
        ensures { result ≡ heard_rules.pending self.now }
    {
        match &self.kind {
            SessionKind::Lines(session) => session.pending() as u64,
            SessionKind::Units(session) => session.pending() as u64,
        }
    }

    /// Passes a segment: enters what its units name into the list of its sender, and tells what is sent for it, or OutOfMemory. The
    /// segment must pass. The entries must be the addresses in its units beside what they are called. The list must not get longer
    /// than 256 entries, and each image must be that of its unit by the list with these entries. After OutOfMemory the session must
    /// not be used again.
    pub fn step(
        &mut self,
        from: Host,
        segment: &TcpView<'_>,
        completed: Completed<'_>,
    ) -> Result<Sent, OutOfMemory>
        requires few { length
            (entered_all (heard_rules.listed from self.old) completed.entries.now)
            ≤ MOST_ENTRIES }
        requires images { AreImages
            (dns_units (entered_all (heard_rules.listed from self.old)
            completed.entries.now)) completed.images.items }
        requires named { (image : Addr → Option Addr)
            × (completed.entries.now
            ≡ beside image (addresses_in
            (heard_rules.units from self.old (segment_in segment.now)))) }
        requires passes { heard_rules.refusal from self.old (segment_in segment.now)
            ≡ None }
        ensures next { (image : Addr → Option Addr)
            → completed.entry.entries.now
            ≡ beside image (addresses_in
            (heard_rules.units from self.old (segment_in segment.now)))
            → OnOk result (self.new
            ≡ heard_rules.next image from self.old (segment_in segment.now)) }
        ensures sent { (image : Addr → Option Addr)
            → completed.entry.entries.now
            ≡ beside image (addresses_in
            (heard_rules.units from self.old (segment_in segment.now)))
            → IfOk result (λ s. s
            ≡ handed (heard_sent image from self.old (segment_in segment.now))
            (heard_rules.ends from self.old (segment_in segment.now))) }
    {
        match &mut self.kind {
            SessionKind::Lines(session) => return session.step(from, segment),
            SessionKind::Units(session) => {
                match step_units(session, from, segment, completed) {
                    Ok(sent) => return Ok(sent),
                    Err(error) => {
                        self.kind = SessionKind::Lines(ftp_session(
                            self.alloc,
                            self.pair,
                            0,
                            DEFAULT_SEGMENT_SIZE,
                        ));
                        return Err(error);
                    }
                }
            }
        }
    }
}

/// Puts the octets whose whole units a segment that passes completes.
fn put_units(session: &DnsSession, from: Host, segment: &TcpView<'_>, octets: &mut UnitOctets)
    requires empty { octets.old ≡ [] }
    requires passes { segment_refusal from (streams_of session.now)
        (segment_in segment.now) ≡ None }
    ensures { whole_units octets.new
        ≡ completed (own from (streams_of session.now)) (segment_in segment.now) }
{
    if is_data(segment) {
        let repeated = session.repeated(from, segment);
        octets.join(session.rest(from), &segment.payload()[repeated..]);
    }
}

/// Whether it has neither SYN nor RST.
fn is_data(segment: &TcpView<'_>) -> bool
    ensures { result ≡ is_data (arrival (segment_in segment.now)) }
{
    let flags = flags_of(segment.flags());
    !flags.syn && !flags.reset
}
