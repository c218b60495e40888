// The records of a capture.
ghost use Rattle.std.specs.Prelude.{◌≡◌, ◌≤◌, length, IfSome};
ghost use Rattle.gate_desk.specs.Outside.{CanRead};
ghost use Rattle.pcap_files.specs.Inside.Heads.{Judges, StandsWhole, TakesHead, TakesRecord};
ghost use Rattle.pcap_files.specs.Reader.{LeavesCounts};

use crate::{CaptureFault, Form, ReadStop};
use gate_base::SECOND;
use gate_desk::{Desk, Slot, read_full};

/// The octets of a record's head.
pub const RECORD_HEAD: usize = 16;

/// The most octets that a record keeps.
pub const LONGEST_RECORD: usize = 262_144;

/// The most octets of a capture: 2^40, a limit of the gateway's own.
pub const LONGEST_CAPTURE: u64 = 1_099_511_627_776;

/// What the head of a record says.
#[derive(Clone, Copy, Debug, PartialEq, Eq)]
pub struct RecordHead {
    /// Nanoseconds since the epoch of the capture.
    pub stamp: u64,
    /// How many octets of the frame the capture kept.
    pub kept: usize,
    /// Whether these are all of the frame.
    pub whole: bool,
}

/// What the head of a record says that begins at a place of a capture, or its first fault.
#[inline(always)]
#[tactic(auto, unfolding(crate::specs::Inside::Heads::after_head))]
fn fields_of(form: Form, place: u64, head: &[u8]) -> Result<RecordHead, CaptureFault>
    requires long { length head.now ≡ 16 }
    requires small { place ≤ LONGEST_CAPTURE }
    ensures { Judges result form place head.now }
{
    let seconds = form.order.number(head, 0) as u64;
    let nanoseconds = form.order.number(head, 4) as u64 * form.precision.unit();
    let kept = form.order.number(head, 8) as usize;
    let original = form.order.number(head, 12) as usize;
    if nanoseconds >= SECOND {
        return Err(CaptureFault::Stamp);
    }
    if kept > LONGEST_RECORD {
        return Err(CaptureFault::RecordTooLong);
    }
    if place + 16 + kept as u64 > LONGEST_CAPTURE {
        return Err(CaptureFault::CaptureTooLong);
    }
    Ok(RecordHead {
        stamp: seconds * SECOND + nanoseconds,
        kept,
        whole: original <= kept,
    })
}

/// Reads the head of the next record, if there is one.
#[inline(always)]
fn read_head<D: Desk>(
    desk: &mut D,
    slot: Slot,
    form: Form,
    place: u64,
) -> Result<Option<RecordHead>, ReadStop>
    requires start { CanRead (D.outside desk.old) slot }
    requires small { place ≤ LONGEST_CAPTURE }
    ensures takes { TakesHead result form place slot (D.outside desk.old)
        (D.outside desk.new) }
    ensures leaves { LeavesCounts result (D.outside desk.old) (D.outside desk.new) }
{
    let mut head = [0u8; RECORD_HEAD];
    let n = match read_full(desk, slot, &mut head) {
        Ok(n) => n,
        Err(_) => return Err(ReadStop::Desk(slot)),
    };
    if n == 0 {
        return Ok(None);
    }
    if n < RECORD_HEAD {
        return Err(ReadStop::Fault(CaptureFault::Torn, place));
    }
    match fields_of(form, place, &head) {
        Ok(fields) => Ok(Some(fields)),
        Err(fault) => Err(ReadStop::Fault(fault, place)),
    }
}

/// The record that stands whole at the front of these octets, if there is one, its own copied into the front of the buffer.
#[inline(always)]
fn copy_record(form: Form, place: u64, octets: &[u8], buffer: &mut [u8]) -> Option<RecordHead>
    requires small { place ≤ LONGEST_CAPTURE }
    requires room { length buffer.old ≡ LONGEST_RECORD }
    ensures { IfSome result (λ h. StandsWhole h form place octets.now buffer.new) }
{
    if octets.len() < RECORD_HEAD {
        return None;
    }
    let (head, rest) = octets.split_at(RECORD_HEAD);
    let Ok(fields) = fields_of(form, place, head) else {
        return None;
    };
    if rest.len() < fields.kept {
        return None;
    }
    buffer[..fields.kept].copy_from_slice(&rest[..fields.kept]);
    Some(fields)
}

/// Reads the next record, if there is one, its octets into the front of the buffer.
#[inline(always)]
pub fn read_record<D: Desk>(
    desk: &mut D,
    slot: Slot,
    form: Form,
    place: u64,
    buffer: &mut [u8],
) -> Result<Option<RecordHead>, ReadStop>
    requires start { CanRead (D.outside desk.old) slot }
    requires small { place ≤ LONGEST_CAPTURE }
    requires room { length buffer.old ≡ LONGEST_RECORD }
    ensures takes { TakesRecord result form place slot buffer.new (D.outside desk.old)
        (D.outside desk.new) }
    ensures leaves { LeavesCounts result (D.outside desk.old) (D.outside desk.new) }
{
    if let Some(fields) = copy_record(form, place, desk.ahead(slot), buffer) {
        desk.skip(slot, RECORD_HEAD + fields.kept);
        return Ok(Some(fields));
    }
    read_in_parts(desk, slot, form, place, buffer)
}

// The same by reads, where the record doesn't stand ready as a whole. Out of line, since most records do.
#[inline(never)]
fn read_in_parts<D: Desk>(
    desk: &mut D,
    slot: Slot,
    form: Form,
    place: u64,
    buffer: &mut [u8],
) -> Result<Option<RecordHead>, ReadStop>
    requires start { CanRead (D.outside desk.old) slot }
    requires small { place ≤ LONGEST_CAPTURE }
    requires room { length buffer.old ≡ LONGEST_RECORD }
    ensures takes { TakesRecord result form place slot buffer.new (D.outside desk.old)
        (D.outside desk.new) }
    ensures leaves { LeavesCounts result (D.outside desk.old) (D.outside desk.new) }
{
    let Some(fields) = read_head(desk, slot, form, place)? else {
        return Ok(None);
    };
    let count = match read_full(desk, slot, &mut buffer[..fields.kept]) {
        Ok(count) => count,
        Err(_) => return Err(ReadStop::Desk(slot)),
    };
    if count < fields.kept {
        return Err(ReadStop::Fault(CaptureFault::Torn, place));
    }
    Ok(Some(fields))
}
