// The given files.
ghost use Rattle.std.specs.Prelude.{◌≡◌, false};
ghost use Rattle.gate_desk.specs.Outside.{CanRead};
ghost use Rattle.gate_desk.specs.declared.slot.Slot.TheVariants.{LeftGiven, RightGiven};
ghost use Rattle.lawful_files.specs.Prelude.{begun};
ghost use Rattle.file_audit.specs.Events.{BeginsGiven};
ghost use Rattle.file_audit.specs.Inside.Frames.{BeginsCapture, TakesNext};
ghost use Rattle.file_audit.specs.Given.{IsRunning, ReadsGiven};
ghost use Rattle.file_audit.specs.Stops.{LeavesCounts};
ghost use Rattle.file_audit.specs.Inside.Stops.{LeavesFaults};

use crate::ahead::Ahead;
use crate::records::take_records;
use gate_audit::Auditor;
use gate_base::{Link, Side};
use gate_desk::{Desk, Slot};
use gate_settings::Settings;
use lawful_files::AuditReason;
use pcap_files::{CaptureReader, ReadStop};
use run_setup::Status;
use std::alloc::Global;

/// The given files as far as they are read: both captures record by record, and the report with what of it was read ahead.
pub struct GivenFiles {
    pub(crate) left: CaptureReader,
    pub(crate) right: CaptureReader,
    pub(crate) report: Ahead,
}

// By a call of its own, since a drop that is written out wherever it happens is slow to prove.
impl Drop for GivenFiles {
    fn drop(self) {
        let Self {
            left,
            right,
            report,
        } = self;
    }
}

// Reads the head of a given capture, and takes room for one record.
fn begin_capture<D: Desk>(
    alloc: Global,
    desk: &mut D,
    slot: Slot,
    link: Link,
) -> Result<CaptureReader, Status>
    requires { CanRead (D.outside desk.old) slot }
    ensures begins { BeginsCapture result slot link (D.outside desk.old)
        (D.outside desk.new) }
    ensures leaves { LeavesFaults result (D.outside desk.old) (D.outside desk.new) }
{
    match CaptureReader::begin(alloc, desk, slot) {
        Ok(reader) => {
            if reader.link() != link {
                return Err(Status::Unlawful(0, AuditReason::Capture));
            }
            Ok(reader)
        }
        Err(ReadStop::Fault(_, _)) => Err(Status::Unlawful(0, AuditReason::Capture)),
        Err(ReadStop::Desk(slot)) => Err(Status::ReadFault(slot)),
        Err(ReadStop::OutOfMemory) => Err(Status::OutOfMemory),
    }
}

impl GivenFiles {
    /// Reads the heads of both given captures, the left one first, and takes room for one record of each. The error is that
    /// one has no head with the settings' link, that a read failed, or that there is too little memory.
    pub fn begin<D: Desk>(
        alloc: Global,
        desk: &mut D,
        settings: &Settings,
    ) -> Result<GivenFiles, Status>
        requires left { CanRead (D.outside desk.old) LeftGiven }
        requires right { CanRead (D.outside desk.old) RightGiven }
        ensures answer { BeginsGiven result settings.now (D.outside desk.old)
            (D.outside desk.new) }
        ensures reads { ReadsGiven (D.outside desk.old) (D.outside desk.new) }
        ensures leaves { LeavesCounts result (D.outside desk.old)
            (D.outside desk.new) }
    {
        let left = begin_capture(alloc, desk, Slot::LeftGiven, settings.left.link)?;
        let right = begin_capture(alloc, desk, Slot::RightGiven, settings.right.link)?;
        Ok(GivenFiles {
            left,
            right,
            report: Ahead::new(),
        })
    }
}

/// Takes so many records of the capture to which the frames of a side go, and lets the auditor judge each: whether there are
/// so many.
pub fn take_next<D: Desk>(
    desk: &mut D,
    given: &mut GivenFiles,
    auditor: &mut Auditor,
    from: Side,
    frames: u32,
) -> Result<bool, Status>
    requires left { CanRead (D.outside desk.old) LeftGiven }
    requires right { CanRead (D.outside desk.old) RightGiven }
    requires running { IsRunning given.old }
    requires kept { auditor.old.lost ≡ false }
    requires begun { auditor.old.expecting.so_far ≡ begun }
    ensures answer { TakesNext result frames from given.old given.new auditor.old
        auditor.new (D.outside desk.old) (D.outside desk.new) }
    ensures reads { ReadsGiven (D.outside desk.old) (D.outside desk.new) }
    ensures leaves { LeavesFaults result (D.outside desk.old) (D.outside desk.new) }
{
    match from {
        Side::Left => take_records(desk, &mut given.right, auditor, frames),
        Side::Right => take_records(desk, &mut given.left, auditor, frames),
    }
}
