// A run over a workload in memory.
ghost use Rattle.std.specs.Prelude.{◌≡◌, ◌≤◌, MatchResult};
ghost use Rattle.run_setup.specs.declared.command.TheConstants.{MOST_ROUNDS};
ghost use Rattle.gateway.specs.Making.{IsMake, IsLineOf};

use crate::report::put_line;
use crate::running::run;
use gate_desk::{Access, Desk, DiscardingDesk, Slot};
use gate_report::{Line, LineRoom};
use gate_settings::ReportForm;
use gate_workload::Workload;
use run_setup::{FileNames, Status};
use std::alloc::Global;

/// The names of the slots of a run in memory, which mean nothing.
const NAMES: FileNames<'static> = FileNames {
    settings: "settings",
    left_in: "left",
    right_in: "right",
    left_out: "left",
    right_out: "right",
    report: "report",
};

/// Runs over the workload of a number with so many rounds, throws its outputs away, and answers the last line of its report.
/// Nothing but memory can be wanting.
fn rehearse(alloc: Global, number: u32, count: u32) -> Result<Line, Status>
    requires { count ≤ MOST_ROUNDS }
    ensures { MatchResult result (λ line. IsLineOf line number count)
        (λ status. status ≡ Status.OutOfMemory) }
{
    let workload = gate_workload::make(alloc, number, count)?;
    let Workload {
        settings,
        left,
        right,
    } = workload;
    let mut desk = DiscardingDesk::new(
        alloc,
        settings.into_vec(),
        left.into_vec(),
        right.into_vec(),
    );
    run(alloc, &mut desk, NAMES)
}

/// Runs over the workload of a number with so many rounds, and writes the last line of its report as text.
pub fn make<D: Desk>(alloc: Global, desk: &mut D, number: u32, count: u32, report: &str) -> Status
    requires { count ≤ MOST_ROUNDS }
    ensures { IsMake result number count report.now (D.outside desk.old)
        (D.outside desk.new) }
{
    match desk.start(Slot::Report, report, Access::Write) {
        Ok(()) => {}
        Err(_) => return Status::OpenFault(Slot::Report),
    }
    let line = match rehearse(alloc, number, count) {
        Ok(line) => line,
        Err(status) => return status,
    };
    match put_line(desk, &mut LineRoom::new(alloc), ReportForm::Text, &line) {
        Ok(()) => Status::Done,
        Err(status) => status,
    }
}
