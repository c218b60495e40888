// What is found at a frame, and behind the last one.
ghost use Rattle.std.specs.Prelude.{◌≡◌, ◌<◌, ◌^◌};
ghost use Rattle.gate_base.specs.Prelude.{IsMoment};
ghost use Rattle.frag_join.specs.Prelude.{Arrival};
ghost use Rattle.lawful_files.specs.Prelude.{State, begun};
ghost use Rattle.file_audit.specs.Inside.Events.{state_of, CanGoOn, FindsAt, FindsLast, IsExpecting};
ghost use Rattle.file_audit.specs.Given.{ReadsGiven};
ghost use Rattle.file_audit.specs.Inside.Stops.{LeavesFaults};

use crate::given::{GivenFiles, take_next};
use crate::line::{LineHead, take_last, take_line};
use crate::records::is_at_end;
use gate_audit::Auditor;
use gate_desk::Desk;
use gate_report::Totals;
use lawful_files::AuditReason;
use run_setup::Status;
use std::alloc::Global;

/// Takes what the given files have for the frame that is expected: its line, and so many records as that tells. It answers
/// what is counted then.
pub fn take_event<D: Desk>(
    alloc: Global,
    desk: &mut D,
    given: &mut GivenFiles,
    auditor: &mut Auditor,
    totals: Totals,
    head: LineHead,
) -> Result<Totals, Status>
    requires can { CanGoOn given.old auditor.old totals (D.outside desk.old) }
    requires begun { auditor.old.expecting.so_far ≡ begun }
    requires number { head.number < 2 ^ 43 }
    requires moment { IsMoment head.moment.0 }
    ensures answer { (s : State) (x : Arrival)
        → IsExpecting head totals auditor.old s x
        → FindsAt result s x given.old given.new auditor.old auditor.new
        (D.outside desk.old) (D.outside desk.new) }
    ensures reads { ReadsGiven (D.outside desk.old) (D.outside desk.new) }
    ensures leaves { LeavesFaults result (D.outside desk.old) (D.outside desk.new) }
{
    let form = auditor.settings().report;
    let Some(frames) = take_line(alloc, desk, &mut given.report, form, head)? else {
        return Err(Status::Unlawful(head.number, AuditReason::Line));
    };
    let there = take_next(desk, given, auditor, head.side, frames)?;
    if !there {
        return Err(Status::Unlawful(head.number, AuditReason::Missing));
    }
    if !auditor.closed() {
        return Err(Status::Unlawful(head.number, AuditReason::Frame));
    }
    Ok(totals.count(head.side, head.verdict, frames))
}

/// Takes what is left behind the last event: whether that is the last line alone.
pub fn take_rest<D: Desk>(
    alloc: Global,
    desk: &mut D,
    given: &mut GivenFiles,
    auditor: &Auditor,
    totals: Totals,
) -> Result<(), Status>
    requires { CanGoOn given.old auditor.now totals (D.outside desk.old) }
    ensures answer { FindsLast result auditor.now.settings
        (state_of auditor.now totals) given.old (D.outside desk.old)
        (D.outside desk.new) }
    ensures reads { ReadsGiven (D.outside desk.old) (D.outside desk.new) }
    ensures leaves { LeavesFaults result (D.outside desk.old) (D.outside desk.new) }
{
    let left = Status::Unlawful(totals.events + 1, AuditReason::Left);
    let left_ended = is_at_end(desk, &mut given.left)?;
    if !left_ended {
        return Err(left);
    }
    let right_ended = is_at_end(desk, &mut given.right)?;
    if !right_ended {
        return Err(left);
    }
    let line = totals.last_line(auditor.pending());
    let alone = take_last(
        alloc,
        desk,
        &mut given.report,
        auditor.settings().report,
        &line,
    )?;
    if alone { Ok(()) } else { Err(left) }
}
