// All events of both captures.
ghost use Rattle.std.specs.Prelude.{◌≡◌, OnOk};
ghost use Rattle.frag_join.specs.Prelude.{opened};
ghost use Rattle.gate_desk.specs.Outside.{IsAtEnd};
ghost use Rattle.gate_desk.specs.declared.slot.Slot.TheVariants.{LeftIn, RightIn};
ghost use Rattle.gate_audit.specs.Auditing.{IsOpening};
ghost use Rattle.file_audit.specs.Events.{AreToRead, Finds, TookFew};
ghost use Rattle.file_audit.specs.Stops.{LeavesCounts};

use crate::event::{take_event, take_rest};
use crate::expect::expect;
use crate::given::GivenFiles;
use frag_join::Joiner;
use gate_audit::Auditor;
use gate_desk::Desk;
use gate_report::Totals;
use pcap_merge::Merge;
use run_setup::Status;
use std::alloc::Global;

/// Takes the events of both captures, and judges what the given files have for each, before the next record of an incoming
/// capture is read. It answers how many events there are. The error is the status with which the audit ends.
#[inline(never)]
pub fn audit_events<D: Desk>(
    alloc: Global,
    desk: &mut D,
    merge: &mut Merge,
    joiner: &mut Option<Joiner>,
    auditor: &mut Auditor,
    given: &mut GivenFiles,
) -> Result<u64, Status>
    requires files { AreToRead merge.old given.old (D.outside desk.old) }
    requires joiner { joiner.old ≡ opened auditor.old.settings.join }
    requires opening { IsOpening auditor.old.settings auditor.old }
    ensures answer { Finds result auditor.old.settings merge.old given.old
        (D.outside desk.old) (D.outside desk.new) }
    ensures taken { TookFew auditor.old.settings merge.old given.old
        (D.outside desk.old) (D.outside desk.new) }
    ensures left_end { OnOk result (IsAtEnd (D.outside desk.new) LeftIn) }
    ensures right_end { OnOk result (IsAtEnd (D.outside desk.new) RightIn) }
    ensures leaves { LeavesCounts result (D.outside desk.old) (D.outside desk.new) }
{
    let mut totals = Totals::new();
    'events: loop {
        let more = merge.advance(desk)?;
        if !more {
            take_rest(alloc, desk, given, auditor, totals)?;
            return Ok(totals.events);
        }
        let head = expect(joiner, auditor, totals.events + 1, merge.event())?;
        let counted = take_event(alloc, desk, given, auditor, totals, head)?;
        totals = counted;
    }
}
