// The auditor's sessions as those of an engine.
ghost use Rattle.std.specs.Prelude.{◌≡◌, None, Some, if◌then◌else◌};
ghost use Rattle.audit_sessions.specs.Heard.{heard_rules};

use crate::session::{AuditedSession, ftp_session};
use audit_records::Pieces;
use dns_plans::{Completed, Tracked};
use event_outbox::{Datagrams, Segment};
use event_payloads::Way;
use event_segments::Workspace;
use event_state::{Engine, Stepped};
use gate_base::{Host, OutOfMemory, Pair};
use std::alloc::Global;
use tcp_segments::TcpView;
use verdicts::Refusal;

impl Engine for AuditedSession {
    ghost use Rattle.lawful_files.specs.Prelude.{Wanted};
    ghost use Rattle.audit_sessions.specs.Gives.{heard_gives};

    type Sent = Pieces;

    ghost Told = { Wanted };

    ghost gives = { heard_gives };

    fn new(
        alloc: Global,
        port: u16,
        pair: Pair,
        initial: u32,
        mss: u16,
    ) -> Result<AuditedSession, OutOfMemory> {
        AuditedSession::opened(alloc, port, pair, initial, mss)
    }

    // By a session of FTP, which takes no memory: what a SYN is refused for is the same in both.
    fn opening_refusal(alloc: Global, pair: Pair, segment: &TcpView<'_>) -> Option<Refusal> {
        let session = ftp_session(alloc, pair, segment.sequence(), segment.mss());
        session.refusal(Host::Client, segment)
    }

    fn take(
        tracked: &mut Tracked<AuditedSession>,
        workspace: &mut Workspace,
        way: &Way,
        segment: &Segment<'_>,
        completed: Completed<'_>,
        _outbox: &mut Datagrams,
    ) -> Result<Stepped<Pieces>, OutOfMemory> {
        let from = tracked.host_on(way.side);
        // No header of a segment has more than 60 octets: its options leave room for a piece.
        let _header = segment.tcp.header();
        let sent = tracked.session.step(from, segment.tcp, completed)?;
        let waiting = waiting(&tracked.session, sent.ends);
        let pieces = Pieces::of(
            workspace.alloc,
            segment.datagram,
            segment.tcp,
            way.source_image(),
            way.destination_image(),
            sent,
        )?;
        Ok(Stepped {
            sent: pieces,
            waiting,
        })
    }
}

/// How many changed lines or units wait in a session; None where it is over.
fn waiting(session: &AuditedSession, over: bool) -> Option<u64>
    ensures { result
        ≡ (if over then None else Some (heard_rules.pending session.now)) }
{
    if over {
        return None;
    }
    Some(session.pending())
}
