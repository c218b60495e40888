// What an engine does with its sessions, and what it tells of a datagram.
ghost use Rattle.std.specs.Prelude.{◌≡◌, ◌≤◌, Option, [], length, IfOk, OnErr, OnOk};
ghost use Rattle.gate_base.specs.declared.address.Addr.{Addr};
ghost use Rattle.gate_base.specs.declared.host.Host.TheVariants.{Client};
ghost use Rattle.gate_base.specs.declared.protocol.TheConstants.{LONGEST_DATAGRAM};
ghost use Rattle.stream_model.specs.Prelude.{segment_in};
ghost use Rattle.gate_model.specs.Stream as streams;
ghost use Rattle.event_segments.specs.Prelude.{IsSegmentOf, AreCalled, Enters};
ghost use Rattle.event_state.specs.Engines.{Gives, IsStepped, IsUnstepped};

use crate::stepped::Stepped;
use dns_plans::{Completed, Session, Tracked};
use event_outbox::{Datagrams, Segment};
use event_payloads::Way;
use event_segments::Workspace;
use gate_base::{OutOfMemory, Pair};
use std::alloc::Global;
use tcp_segments::TcpView;
use verdicts::Refusal;

/// The sessions of an engine: the gate's, which put datagrams, or the auditor's, which tell what is sent before it is cut.
pub trait Engine: Session + Drop {
    /// What a session hands out for a segment, beside the datagrams that it puts.
    type Sent: Drop;

    /// What is told of a datagram.
    ghost Told: { Type 0 };

    /// What is told of datagrams that pass, and of those for which memory runs out.
    ghost gives: { Gives Self Self.Sent Told };

    /// The session that a client's first SYN to a port of the server makes, by the SYN's number and maximum segment size. On the
    /// port of DNS it is one of DNS, and else one of FTP.
    fn new(
        alloc: Global,
        port: u16,
        pair: Pair,
        initial: u32,
        mss: u16,
    ) -> Result<Self, OutOfMemory>
        ensures { IfOk result
            (λ session. session ≡ Self.rules.made port pair initial mss) };

    /// Why the first segment of a client is refused by the session that it makes; None where it passes.
    fn opening_refusal(alloc: Global, pair: Pair, segment: &TcpView<'_>) -> Option<Refusal>
        requires { length segment.now.payload ≤ LONGEST_DATAGRAM }
        ensures { result
            ≡ Self.rules.refusal Client
            (Self.rules.made segment.now.destination_port pair
            segment.now.sequence segment.now.mss) (segment_in segment.now) };

    /// A session takes a segment, whose units bring these entries and images.
    fn take(
        tracked: &mut Tracked<Self>,
        workspace: &mut Workspace,
        way: &Way,
        segment: &Segment<'_>,
        completed: Completed<'_>,
        outbox: &mut Datagrams,
    ) -> Result<Stepped<Self::Sent>, OutOfMemory>
        requires enters { Enters Self.rules way.now.side segment.now.datagram.now
            tracked.old completed.entries.now completed.images.items }
        requires empty { outbox.old ≡ [] }
        requires whole { IsSegmentOf segment.now.octets.now segment.now.datagram.now
            segment.now.tcp.now }
        ensures next { (image : Addr → Option Addr)
            → AreCalled Self.rules image way.now.side segment.now.datagram.now
            tracked.old completed.entry.entries.now
            → OnOk result (tracked.new
            ≡ streams.stepped Self.rules image way.now.side
            segment.now.datagram.now tracked.old) }
        ensures stepped { (image : Addr → Option Addr)
            → AreCalled Self.rules image way.now.side segment.now.datagram.now
            tracked.old completed.entry.entries.now
            → IfOk result (λ s. IsStepped Self.rules gives image way.now
            segment.now.datagram.now tracked.old s outbox.new) }
        ensures lost { OnErr result (IsUnstepped gives way.now.side
            segment.now.datagram.now tracked.old tracked.old tracked.new
            outbox.new) };
}
