// The lines of the given report.
ghost use Rattle.std.specs.Prelude.{OnErr, true, ◌≡◌, ◌<◌, ◌≤◌, ◌^◌, IfOk, length};
ghost use Rattle.gate_base.specs.Prelude.{IsMoment};
ghost use Rattle.gate_desk.specs.declared.slot.Slot.TheVariants.{ReportGiven};
ghost use Rattle.gate_desk.specs.Outside.{CanRead};
ghost use Rattle.gate_report.specs.Lines.{line_octets, takes_memory};
ghost use Rattle.file_audit.specs.Inside.Lines.{agreed, agreement, number_after, with_digit, line_with, FindsLine, IsLast, TakesLine, TakesLast};
ghost use Rattle.file_audit.specs.Inside.Stops.{LeavesFaults};

use crate::ahead::Ahead;
use gate_base::{Moment, OutOfMemory, Side};
use gate_desk::Desk;
use gate_report::{Line, LineRoom};
use gate_settings::ReportForm;
use run_setup::Status;
use std::alloc::Global;
use verdicts::Verdict;

/// What the line of a frame tells but for how many were sent for it.
#[derive(Clone, Copy)]
pub struct LineHead {
    /// The number of the event.
    pub number: u64,
    /// The side from which the frame came.
    pub side: Side,
    /// Its moment.
    pub moment: Moment,
    /// Its verdict.
    pub verdict: Verdict,
}

/// How far octets agree with a line, and whether they have all of it.
#[derive(Clone, Copy)]
pub struct Extent {
    pub count: usize,
    pub whole: bool,
}

/// The line that a report goes on with: how many frames it tells, and how many octets it has.
#[derive(Clone, Copy)]
pub struct LineFound {
    pub frames: u32,
    pub length: usize,
}

impl LineHead {
    fn with(self, frames: u32) -> Line
        ensures { result ≡ line_with self frames }
    {
        Line::Event {
            number: self.number,
            side: self.side,
            moment: self.moment,
            verdict: self.verdict,
            frames,
        }
    }
}

/// How many octets agree with a line's, from the first on.
fn agreed(line: &[u8], octets: &[u8]) -> usize
    ensures is { result ≡ agreed line.now octets.now }
    ensures bound { result ≤ length octets.now }
{
    let limit = line.len().min(octets.len());
    for place in 0..limit {
        if line[place] != octets[place] {
            return place;
        }
    }
    limit
}

fn agreement(line: &[u8], octets: &[u8]) -> Extent
    ensures is { result ≡ agreement line.now octets.now }
    ensures bound { result.count ≤ length octets.now }
{
    let count = agreed(line, octets);
    Extent {
        count,
        whole: count == line.len(),
    }
}

/// Compares octets with a line in a form.
fn compare(
    alloc: Global,
    form: ReportForm,
    line: &Line,
    octets: &[u8],
) -> Result<Extent, OutOfMemory>
    ensures is { IfOk result
        (λ found. found ≡ agreement (line_octets form line.now) octets.now) }
    ensures bound { IfOk result (λ found. found.count ≤ length octets.now) }
    ensures memory { OnErr result (takes_memory form ≡ true) }
{
    let mut room = LineRoom::new(alloc);
    let made = room.line(form, line)?;
    Ok(agreement(made, octets))
}

/// Whether octets are a line and nothing more.
fn is_line(alloc: Global, form: ReportForm, line: &Line, octets: &[u8]) -> Result<bool, OutOfMemory>
    ensures is { IfOk result (λ answer. IsLast answer form line.now octets.now) }
    ensures memory { OnErr result (takes_memory form ≡ true) }
{
    let found = compare(alloc, form, line, octets)?;
    Ok(found.whole && found.count == octets.len())
}

/// A number with one digit more, where an octet is a digit and the number is below 2^32.
fn with_digit(number: u64, octet: u8) -> Option<u64>
    ensures { result ≡ with_digit number octet }
{
    if octet.is_ascii_digit() && number < 1 << 32 {
        Some(10 * number + u64::from(octet - b'0'))
    } else {
        None
    }
}

/// The number that stands in front of octets, as far as it is read: no further than to the first that is 2^32 or more.
fn number_in_front(octets: &[u8]) -> u64
    ensures { result ≡ number_after 0 octets.now }
{
    let mut number = 0;
    for &octet in octets {
        match with_digit(number, octet) {
            Some(more) => number = more,
            None => return number,
        }
    }
    number
}

/// The line that octets go on with, with whatever number of frames; or none.
fn find_line(
    alloc: Global,
    form: ReportForm,
    head: LineHead,
    octets: &[u8],
) -> Result<Option<LineFound>, OutOfMemory>
    ensures is { IfOk result (λ found. FindsLine found form head octets.now) }
    ensures memory { OnErr result (takes_memory form ≡ true) }
{
    let none = compare(alloc, form, &head.with(0), octets)?;
    if none.whole {
        return Ok(Some(LineFound {
            frames: 0,
            length: none.count,
        }));
    }
    let number = number_in_front(&octets[none.count..]);
    if number >= 1 << 32 {
        return Ok(None);
    }
    let frames = number as u32;
    let found = compare(alloc, form, &head.with(frames), octets)?;
    if found.whole {
        Ok(Some(LineFound {
            frames,
            length: found.count,
        }))
    } else {
        Ok(None)
    }
}

/// Takes the line of a frame from the given report, whatever number of frames it tells, which is answered; or finds that the
/// report doesn't go on with it.
pub fn take_line<D: Desk>(
    alloc: Global,
    desk: &mut D,
    report: &mut Ahead,
    form: ReportForm,
    head: LineHead,
) -> Result<Option<u32>, Status>
    requires can { CanRead (D.outside desk.old) ReportGiven }
    requires number { head.number < 2 ^ 64 }
    requires moment { IsMoment head.moment.0 }
    ensures takes { TakesLine result form head report.old report.new
        (D.outside desk.old) (D.outside desk.new) }
    ensures leaves { LeavesFaults result (D.outside desk.old) (D.outside desk.new) }
{
    report.fill(desk)?;
    match find_line(alloc, form, head, report.octets())? {
        Some(found) => {
            report.skip(found.length);
            Ok(Some(found.frames))
        }
        None => Ok(None),
    }
}

/// Whether the rest of the given report is this line and nothing more.
pub fn take_last<D: Desk>(
    alloc: Global,
    desk: &mut D,
    report: &mut Ahead,
    form: ReportForm,
    line: &Line,
) -> Result<bool, Status>
    requires can { CanRead (D.outside desk.old) ReportGiven }
    requires short { length (line_octets form line.now) < 256 }
    ensures takes { TakesLast result form line.now report.old report.new
        (D.outside desk.old) (D.outside desk.new) }
    ensures leaves { LeavesFaults result (D.outside desk.old) (D.outside desk.new) }
{
    report.fill(desk)?;
    let answer = is_line(alloc, form, line, report.octets())?;
    Ok(answer)
}
