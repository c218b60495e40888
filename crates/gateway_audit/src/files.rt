// The files of an audit: those that it begins with, and the given ones.
ghost use Rattle.std.specs.Prelude.{MatchResult, OnErr, [], ◌≡◌};
ghost use Rattle.pcap_merge.specs.Prelude.{TakenFor};
ghost use Rattle.run_setup.specs.Prelude.{TookInputs, Opens};
ghost use Rattle.run_setup.specs.AuditNames.{names_of, given_starts};
ghost use Rattle.gate_desk.specs.Outside.{CanRead};
ghost use Rattle.gate_desk.specs.declared.slot.Slot.TheVariants.{LeftGiven, RightGiven};
ghost use Rattle.file_audit.specs.Given.{ReadsGiven, TookFiles};
ghost use Rattle.gateway_audit.specs.Audits.{IsAudit};
ghost use Rattle.gateway_audit.specs.Inside.Phases.{Prepared, Begins, LeavesIncoming, Readies};

use file_audit::GivenFiles;
use gate_desk::{Access, Desk, Slot};
use gate_settings::Settings;
use pcap_merge::Merge;
use run_setup::{AuditNames, Status, begin, read_settings_file, start_slot};
use std::alloc::Global;

/// Reads the settings and the heads of both incoming captures.
pub fn prepare<D: Desk>(
    alloc: Global,
    desk: &mut D,
    names: AuditNames<'_>,
) -> Result<(Settings, Merge), Status>
    ensures answer { MatchResult result
        (λ p. Prepared p.0 p.1 (names_of names.entry) (D.outside desk.old)
        (D.outside desk.new)) (λ status. IsAudit status (names_of names.entry)
        (D.outside desk.old) (D.outside desk.new)) }
    ensures taken { OnErr result
        (TakenFor [] (D.outside desk.old) (D.outside desk.new)) }
    ensures inputs { TookInputs (D.outside desk.old) (D.outside desk.new) }
{
    let settings = read_settings_file(alloc, desk, names.settings)?;
    let merge = begin(alloc, desk, names.left_in, names.right_in)?;
    Ok((settings, merge))
}

/// Starts the three given files, the left capture first and the report last.
fn open_given<D: Desk>(desk: &mut D, names: AuditNames<'_>) -> Result<(), Status>
    ensures answer { Opens result (given_starts (names_of names.entry))
        (D.outside desk.old) (D.outside desk.new) }
    ensures left { (D.outside desk.new).left ≡ (D.outside desk.old).left }
{
    start_slot(desk, Slot::LeftGiven, names.left_given, Access::Read)?;
    start_slot(desk, Slot::RightGiven, names.right_given, Access::Read)?;
    start_slot(desk, Slot::ReportGiven, names.report_given, Access::Read)
}

/// Reads the heads of both given captures: None where one has no head with the settings' link.
fn begin_given<D: Desk>(
    alloc: Global,
    desk: &mut D,
    settings: &Settings,
) -> Result<Option<GivenFiles>, Status>
    requires left { CanRead (D.outside desk.old) LeftGiven }
    requires right { CanRead (D.outside desk.old) RightGiven }
    ensures answer { Begins result settings.now (D.outside desk.old)
        (D.outside desk.new) }
    ensures reads { ReadsGiven (D.outside desk.old) (D.outside desk.new) }
{
    match GivenFiles::begin(alloc, desk, settings) {
        Ok(given) => Ok(Some(given)),
        Err(Status::Unlawful(_, _)) => Ok(None),
        Err(status) => Err(status),
    }
}

/// Starts the given files, reads the heads of both given captures, and starts the report, also where a head isn't good, which is None.
pub fn ready<D: Desk>(
    alloc: Global,
    desk: &mut D,
    names: AuditNames<'_>,
    settings: &Settings,
) -> Result<Option<GivenFiles>, Status>
    ensures answer { Readies result settings.now (names_of names.entry)
        (D.outside desk.old) (D.outside desk.new) }
    ensures incoming { LeavesIncoming (D.outside desk.old) (D.outside desk.new) }
    ensures files { TookFiles (D.outside desk.old) (D.outside desk.new) }
{
    open_given(desk, names)?;
    let given = begin_given(alloc, desk, settings)?;
    start_slot(desk, Slot::Report, names.report, Access::Write)?;
    Ok(given)
}
