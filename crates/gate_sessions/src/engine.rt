// The gate's sessions as those of an engine.
ghost use Rattle.std.specs.Prelude.{◌≡◌, None, Some, if◌then◌else◌};
ghost use Rattle.gate_sessions.specs.Compact.{compact_rules};

use crate::kinds::FtpSession;
use crate::session::{AnySession, Passing};
use dns_plans::{Completed, Tracked};
use event_outbox::{Datagrams, Segment};
use event_payloads::Way;
use event_segments::Workspace;
use event_state::{Engine, Stepped};
use gate_base::{OutOfMemory, Pair};
use std::alloc::Global;
use tcp_segments::TcpView;
use verdicts::Refusal;

impl Engine for AnySession {
    ghost use Rattle.std.specs.Prelude.{ℕ, List};
    ghost use Rattle.gate_sessions.specs.Gives.{kept_gives};

    type Sent = ();

    ghost Told = { List (List ℕ) };

    ghost gives = { kept_gives };

    fn new(
        alloc: Global,
        port: u16,
        pair: Pair,
        initial: u32,
        mss: u16,
    ) -> Result<AnySession, OutOfMemory> {
        AnySession::opened(alloc, port, pair, initial, mss)
    }

    fn opening_refusal(_alloc: Global, _pair: Pair, segment: &TcpView<'_>) -> Option<Refusal> {
        FtpSession::opening_refusal(segment)
    }

    fn take(
        tracked: &mut Tracked<AnySession>,
        workspace: &mut Workspace,
        way: &Way,
        segment: &Segment<'_>,
        completed: Completed<'_>,
        outbox: &mut Datagrams,
    ) -> Result<Stepped<()>, OutOfMemory> {
        let passing = Passing {
            from: tracked.host_on(way.side),
            segment,
            source: way.source_image(),
            destination: way.destination_image(),
        };
        let over = tracked
            .session
            .step(&passing, completed, outbox, &mut workspace.scratch)?;
        let waiting = waiting(&tracked.session, over);
        Ok(Stepped { sent: (), waiting })
    }
}

/// How many changed lines or units wait in a session; None where it is over.
fn waiting(session: &AnySession, over: bool) -> Option<u64>
    ensures { result
        ≡ (if over then None else Some (compact_rules.pending session.now)) }
{
    if over {
        return None;
    }
    Some(session.pending())
}
