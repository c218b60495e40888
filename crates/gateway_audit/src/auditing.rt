// An audit as a command.
ghost use Rattle.run_setup.specs.AuditNames.{names_of};
ghost use Rattle.file_audit.specs.Events.{TookFew};
ghost use Rattle.gateway_audit.specs.Audits.{IsAudit, TookForEvents};
ghost use Rattle.gateway_audit.specs.Inside.Phases.{Judges, AreToWalk, Walks};

use crate::files::{prepare, ready};
use crate::verdict::{AuditVerdict, verdict_of, write_verdict};
use file_audit::{GivenFiles, audit_events};
use frag_join::open_joiner;
use gate_audit::Auditor;
use gate_desk::Desk;
use gate_settings::Settings;
use lawful_files::AuditReason;
use pcap_merge::Merge;
use run_setup::{AuditNames, Status};
use std::alloc::Global;

/// Audits given files: the report says for how many events they are lawful for the incoming captures, or which event is the
/// first for which they aren't, and why.
pub fn audit<D: Desk>(alloc: Global, desk: &mut D, names: AuditNames<'_>) -> Status
    ensures answer { IsAudit result (names_of names.entry) (D.outside desk.old)
        (D.outside desk.new) }
    ensures taken { TookForEvents (D.outside desk.old) (D.outside desk.new) }
{
    match audit_files(alloc, desk, names) {
        Ok(verdict) => write_verdict(desk, verdict),
        Err(status) => status,
    }
}

/// What an audit of these files finds. All slots are started then.
fn audit_files<D: Desk>(
    alloc: Global,
    desk: &mut D,
    names: AuditNames<'_>,
) -> Result<AuditVerdict, Status>
    ensures answer { Judges result (names_of names.entry) (D.outside desk.old)
        (D.outside desk.new) }
    ensures taken { TookForEvents (D.outside desk.old) (D.outside desk.new) }
{
    let (settings, mut merge) = prepare(alloc, desk, names)?;
    match ready(alloc, desk, names, &settings)? {
        Some(mut given) => audit_all(alloc, desk, &mut merge, settings, &mut given),
        None => Ok(AuditVerdict::Unlawful(0, AuditReason::Capture)),
    }
}

/// Takes the events of both incoming captures, and judges what the given files have for each.
fn audit_all<D: Desk>(
    alloc: Global,
    desk: &mut D,
    merge: &mut Merge,
    settings: Settings,
    given: &mut GivenFiles,
) -> Result<AuditVerdict, Status>
    requires { AreToWalk settings merge.old given.old (D.outside desk.old) }
    ensures answer { Walks result settings merge.old given.old (D.outside desk.old)
        (D.outside desk.new) }
    ensures taken { TookFew settings merge.old given.old (D.outside desk.old)
        (D.outside desk.new) }
{
    let mut joiner = open_joiner(alloc, settings.join)?;
    let mut auditor = Auditor::new(alloc, settings, desk.seed())?;
    let found = audit_events(alloc, desk, merge, &mut joiner, &mut auditor, given);
    verdict_of(found)
}
