// What a session of either kind puts into the outbox.
ghost use Rattle.std.specs.Prelude.{◌≡◌, ◌≤◌, [], map, None, IfOk, OnOk, OnErr};
ghost use Rattle.compact_stream.specs.Prelude.{kept_out, kept_ends, kept_refusal, kept_next};
ghost use Rattle.stream_gate.specs.Prelude.{KeptCompletes};
ghost use Rattle.gate_model.specs.Prelude.{tcp_of, segment_of, sent_as};

use crate::session::Passing;
use dialogue::Dialogue;
use event_outbox::{Datagrams, Scratch};
use gate_base::OutOfMemory;
use stream_gate::{DatagramModel, StreamGate};

/// Passes a segment: puts what its session sends into the outbox, and says whether the session ends. There is too little memory only where
/// the segment completes a unit that bears an address, and then nothing has changed.
pub fn put_segments<C: Dialogue, S: Dialogue>(
    session: &mut StreamGate<C, S>,
    passing: &Passing<'_>,
    outbox: &mut Datagrams,
    scratch: &mut Scratch,
) -> Result<bool, OutOfMemory>
    requires empty { outbox.old ≡ [] }
    requires segment { passing.now.segment.now.tcp.now
        ≡ tcp_of passing.now.segment.now.datagram.now }
    requires alive { 1 ≤ passing.now.segment.now.datagram.now.lifetime }
    requires passes { kept_refusal passing.now.from session.old.kept
        (segment_of passing.now.segment.now.datagram.now) ≡ None }
    ensures next { OnOk result (session.new
        ≡ record session.old {
          kept = kept_next (C.meaning session.old.client_dialogue)
              (S.meaning session.old.server_dialogue) passing.now.from
              session.old.kept
              (segment_of passing.now.segment.now.datagram.now);
        }) }
    ensures out { OnOk result (outbox.new
        ≡ map
        (sent_as passing.now.segment.now.datagram.now passing.now.source.0
        passing.now.destination.0) (kept_out
        (C.meaning session.old.client_dialogue)
        (S.meaning session.old.server_dialogue) passing.now.from
        session.old.kept (segment_of passing.now.segment.now.datagram.now))) }
    ensures over { IfOk result (λ b. b
        ≡ kept_ends passing.now.from session.old.kept
        (segment_of passing.now.segment.now.datagram.now)) }
    ensures memory { OnErr result (KeptCompletes
        (C.meaning session.old.client_dialogue)
        (S.meaning session.old.server_dialogue) passing.now.from
        session.old.kept (segment_of passing.now.segment.now.datagram.now)) }
    ensures same { OnErr result (session.new ≡ session.old) }
    ensures nothing { OnErr result (outbox.new ≡ []) }
{
    let segment = passing.segment;
    let model = DatagramModel {
        ip: segment.datagram.header(),
        source: passing.source,
        destination: passing.destination,
        lifetime: segment.datagram.lifetime() - 1,
    };
    session.step(passing.from, segment.tcp, &model, outbox, scratch)
}
