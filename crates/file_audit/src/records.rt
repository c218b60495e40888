// The next records of a given capture.
ghost use Rattle.std.specs.Prelude.{◌≡◌, ◌≤◌, ◌*◌, ◌<◌, ◌^◌, false, None};
ghost use Rattle.pcap_files.specs.declared.record.TheConstants.{LONGEST_RECORD};
ghost use Rattle.gate_desk.specs.Outside.{CanRead};
ghost use Rattle.lawful_files.specs.Prelude.{begun};
ghost use Rattle.file_audit.specs.Inside.Records.{FindsEnd, TakesRecord, TakesRecords};
ghost use Rattle.file_audit.specs.Inside.Stops.{LeavesFaults};

use gate_audit::Auditor;
use gate_desk::Desk;
use pcap_files::{CaptureReader, ReadStop};
use run_setup::Status;

/// Takes the next record of a given capture, and lets the auditor judge it: whether there is one.
fn take_record<D: Desk>(
    desk: &mut D,
    reader: &mut CaptureReader,
    auditor: &mut Auditor,
) -> Result<bool, Status>
    requires can { CanRead (D.outside desk.old) reader.old.slot }
    requires running { reader.old.stop ≡ None }
    requires kept { auditor.old.lost ≡ false }
    requires count { auditor.old.expecting.so_far.count < 2 ^ 32 }
    requires carried { auditor.old.expecting.so_far.carried
        ≤ LONGEST_RECORD * auditor.old.expecting.so_far.count }
    ensures takes { TakesRecord result reader.old reader.new auditor.old auditor.new
        (D.outside desk.old) (D.outside desk.new) }
    ensures leaves { LeavesFaults result (D.outside desk.old) (D.outside desk.new) }
{
    match reader.advance(desk) {
        Ok(more) => {
            if !more {
                return Ok(false);
            }
            let _ = auditor.frame(&reader.packet());
            Ok(true)
        }
        Err(ReadStop::Desk(slot)) => Err(Status::ReadFault(slot)),
        Err(ReadStop::Fault(_, _)) => Ok(false),
        Err(ReadStop::OutOfMemory) => Ok(false),
    }
}

/// Takes the next records of a given capture, and lets the auditor judge each: whether there are so many.
pub fn take_records<D: Desk>(
    desk: &mut D,
    reader: &mut CaptureReader,
    auditor: &mut Auditor,
    frames: u32,
) -> Result<bool, Status>
    requires can { CanRead (D.outside desk.old) reader.old.slot }
    requires running { reader.old.stop ≡ None }
    requires kept { auditor.old.lost ≡ false }
    requires begun { auditor.old.expecting.so_far ≡ begun }
    ensures takes { TakesRecords result frames reader.old reader.new auditor.old
        auditor.new (D.outside desk.old) (D.outside desk.new) }
    ensures leaves { LeavesFaults result (D.outside desk.old) (D.outside desk.new) }
{
    let mut taken = 0;
    while taken < frames {
        if !take_record(desk, reader, auditor)? {
            return Ok(false);
        }
        taken += 1;
    }
    Ok(true)
}

/// Whether nothing is left of a given capture, and it has no fault.
pub fn is_at_end<D: Desk>(desk: &mut D, reader: &mut CaptureReader) -> Result<bool, Status>
    requires can { CanRead (D.outside desk.old) reader.old.slot }
    requires running { reader.old.stop ≡ None }
    ensures finds { FindsEnd result reader.old (D.outside desk.old)
        (D.outside desk.new) }
    ensures leaves { LeavesFaults result (D.outside desk.old) (D.outside desk.new) }
{
    match reader.advance(desk) {
        Ok(more) => {
            if more {
                return Ok(false);
            }
            Ok(true)
        }
        Err(ReadStop::Desk(slot)) => Err(Status::ReadFault(slot)),
        Err(ReadStop::Fault(_, _)) => Ok(false),
        Err(ReadStop::OutOfMemory) => Ok(false),
    }
}
