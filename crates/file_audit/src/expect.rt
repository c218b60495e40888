// A frame is expected: as the event that comes to the gate, or as one that stays before it.
ghost use Rattle.std.specs.Prelude.{◌≡◌, false, OnOk};
ghost use Rattle.gate_base.specs.Prelude.{IsMoment, event_of};
ghost use Rattle.frag_join.specs.Prelude.{Reaches, Stopped, arrival, joiner_after, by_known};
ghost use Rattle.file_audit.specs.Inside.Events.{Expected};

use crate::line::LineHead;
use frag_join::{Joiner, Taken, ask, joined};
use gate_audit::Auditor;
use gate_base::{Event, OutOfMemory};
use verdicts::Verdict;

// The auditor expects what is wanted of an event.
fn expect_event(
    auditor: &mut Auditor,
    number: u64,
    event: Event<'_>,
) -> Result<LineHead, OutOfMemory>
    requires kept { auditor.old.lost ≡ false }
    requires early { IsMoment event.moment.0 }
    ensures { Expected result number auditor.old auditor.new
        (Reaches (event_of event.entry)) }
{
    let verdict = auditor.expect(&event)?;
    Ok(LineHead {
        number,
        side: event.side,
        moment: event.moment,
        verdict,
    })
}

// The auditor expects nothing of a frame that stays.
fn expect_nothing(
    auditor: &mut Auditor,
    number: u64,
    event: Event<'_>,
    verdict: Verdict,
) -> Result<LineHead, OutOfMemory>
    requires kept { auditor.old.lost ≡ false }
    ensures { Expected result number auditor.old auditor.new
        (Stopped (event_of event.entry) verdict) }
{
    auditor.expect_nothing(event.side, event.moment);
    Ok(LineHead {
        number,
        side: event.side,
        moment: event.moment,
        verdict,
    })
}

/// The auditor expects what is wanted of a frame: of the event that comes to the gate, or nothing of one that stays. It
/// answers what the frame's line tells, of the event with this number.
pub fn expect(
    joiner: &mut Option<Joiner>,
    auditor: &mut Auditor,
    number: u64,
    event: Event<'_>,
) -> Result<LineHead, OutOfMemory>
    requires kept { auditor.old.lost ≡ false }
    requires early { IsMoment event.moment.0 }
    ensures answer { Expected result number auditor.old auditor.new
        (arrival by_known joiner.old (event_of event.entry)) }
    ensures joiner { joiner.new
        ≡ joiner_after by_known joiner.old (event_of event.entry) }
{
    match ask(joiner, &event) {
        Taken::Plain => expect_event(auditor, number, event),
        Taken::Joined => expect_event(auditor, number, joined(joiner)),
        Taken::Held => expect_nothing(auditor, number, event, Verdict::Held),
        Taken::Refused(refusal) => {
            expect_nothing(auditor, number, event, Verdict::Refused(refusal))
        }
    }
}
