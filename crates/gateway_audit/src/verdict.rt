// What an audit finds, and the line in which it answers.
ghost use Rattle.std.specs.Prelude.{◌≡◌, ◌≤◌, length};
ghost use Rattle.gate_desk.specs.declared.slot.Slot.TheVariants.{Report};
ghost use Rattle.gate_desk.specs.Outside.{CanWrite};
ghost use Rattle.gateway_audit.specs.Inside.Stops.{verdict_of};
ghost use Rattle.gateway_audit.specs.Lines.{answer_line, reason_name};
ghost use Rattle.gateway_audit.specs.Inside.Phases as phases;
ghost use Rattle.gateway_audit.specs.Inside.Phases.{Says};

use arrayvec::ArrayString;
use gate_desk::{Desk, Failed, Slot, write_whole};
use itoa::Buffer;
use lawful_files::AuditReason;
use run_setup::Status;

/// What an audit finds of given files.
#[derive(Clone, Copy)]
pub enum AuditVerdict {
    /// They are lawful, for so many events.
    Lawful(u64),
    /// They aren't, at the event of this number first, for this reason.
    Unlawful(u64, AuditReason),
}

impl AuditVerdict {
    /// The status of an audit that finds this.
    pub fn status(self) -> Status
        ensures { result ≡ phases.status_of self }
    {
        match self {
            AuditVerdict::Lawful(_) => Status::Done,
            AuditVerdict::Unlawful(number, reason) => Status::Unlawful(number, reason),
        }
    }
}

/// What an audit of all events found, or why it stopped.
pub fn verdict_of(found: Result<u64, Status>) -> Result<AuditVerdict, Status>
    ensures { result ≡ verdict_of found }
{
    match found {
        Ok(events) => Ok(AuditVerdict::Lawful(events)),
        Err(Status::Unlawful(number, reason)) => Ok(AuditVerdict::Unlawful(number, reason)),
        Err(status) => Err(status),
    }
}

/// The most octets of the line.
const LINE: usize = 64;

#[tactic(auto, unfolding(crate::specs::Lines::reason_name))]
fn reason_name(reason: AuditReason) -> &'static str
    ensures name { result.now ≡ reason_name reason }
    ensures short { length result.now ≤ 7 }
{
    match reason {
        AuditReason::Capture => "Capture",
        AuditReason::Line => "Line",
        AuditReason::Missing => "Missing",
        AuditReason::Frame => "Frame",
        AuditReason::Left => "Left",
    }
}

/// The line of a verdict.
fn line_of(verdict: AuditVerdict) -> ArrayString<LINE>
    ensures { result.bytes ≡ answer_line verdict }
{
    let mut line = ArrayString::new();
    let mut digits = Buffer::new();
    match verdict {
        AuditVerdict::Lawful(events) => {
            line.push_str("lawful events=");
            line.push_str(digits.format(events));
        }
        AuditVerdict::Unlawful(number, reason) => {
            line.push_str("unlawful event=");
            line.push_str(digits.format(number));
            line.push_str(" ");
            line.push_str(reason_name(reason));
        }
    }
    line.push_str("\n");
    line
}

/// Writes the line of a verdict on the report: the verdict's status, or that the write failed.
pub fn write_verdict<D: Desk>(desk: &mut D, verdict: AuditVerdict) -> Status
    requires { CanWrite (D.outside desk.old) Report }
    ensures { Says result verdict (D.outside desk.old) (D.outside desk.new) }
{
    match write_whole(desk, Slot::Report, line_of(verdict).as_str().as_bytes()) {
        Ok(()) => verdict.status(),
        Err(Failed) => Status::WriteFault(Slot::Report),
    }
}
