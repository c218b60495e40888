// The line about what went wrong.
ghost use Rattle.std.specs.Prelude.{◌≡◌, ◌+◌, ◌<◌, ◌≤◌, ◌++◌, codes, length};
ghost use Rattle.run_setup.specs.Status.{error_line};
ghost use Rattle.run_setup.specs.declared.status.Status.TheVariants.{CaptureRefused};
ghost use Rattle.run_setup.specs.Telling.{Tells, WritesLine};

use crate::Status;
use arrayvec::ArrayString;
use gate_base::Side;
use gate_desk::{Desk, Slot, write_whole};
use itoa::Buffer;
use pcap_files::CaptureFault;
use std::fmt;

const USAGE: &str =
    "usage: run SETTINGS LEFT_IN RIGHT_IN LEFT_OUT RIGHT_OUT REPORT | make NUMBER COUNT REPORT | audit SETTINGS LEFT_IN RIGHT_IN LEFT_GIVEN RIGHT_GIVEN REPORT_GIVEN REPORT\n";

/// The line about what went wrong. There is room for 256 octets.
pub type ErrorLine = ArrayString<256>;

// A line that is given whole.
fn whole(line: &str) -> ErrorLine
    requires { length line.now ≤ 256 }
    ensures { result.bytes ≡ line.now }
{
    let mut text = ErrorLine::new();
    text.push_str(line);
    text
}

// The line of a label and a text.
fn labelled(label: &str, text: &str) -> ErrorLine
    requires { length label.now + length text.now < 256 }
    ensures { result.bytes ≡ label.now ++ text.now ++ codes "\n" }
{
    let mut line = ErrorLine::new();
    line.push_str(label);
    line.push_str(text);
    line.push_str("\n");
    line
}

// The line of a capture's fault.
#[tactic(auto, unfolding(crate::specs::Status::error_line), using(settings_file::proofs::Names::side_short))]
fn capture_line(side: Side, fault: CaptureFault, place: u64) -> ErrorLine
    ensures { result.bytes ≡ error_line (CaptureRefused side fault place) }
{
    let mut line = ErrorLine::new();
    line.push_str("capture ");
    line.push_str(side.name());
    line.push_str(": ");
    line.push_str(fault.name());
    line.push_str(" at ");
    line.push_str(Buffer::new().format(place));
    line.push_str("\n");
    line
}

impl Status {
    /// The line about what went wrong. It is empty where all was done, and where an audit's verdict is in the report. It takes no
    /// memory.
    #[tactic(auto, unfolding(crate::specs::Status::error_line), using(crate::proofs::Lines::slot_short))]
    pub fn line(&self) -> ErrorLine
        ensures { result.bytes ≡ error_line self.now }
    {
        match *self {
            Status::Done | Status::Unlawful(_, _) => whole(""),
            Status::Usage => whole(USAGE),
            Status::SettingsRefused(fault) => labelled("settings: ", fault.text().as_str()),
            Status::CaptureRefused(side, fault, place) => capture_line(side, fault, place),
            Status::ReadFault(slot) => labelled("read failed: ", slot.name()),
            Status::WriteFault(slot) => labelled("write failed: ", slot.name()),
            Status::OpenFault(slot) => labelled("open failed: ", slot.name()),
            Status::OutOfMemory => whole("out of memory\n"),
        }
    }
}

impl fmt::Display for Status {
    ghost use Rattle.std.specs.Prelude.{Some};

    ghost output = { λ status. Some (error_line status) };

    fn fmt<W: fmt::Write>(&self, f: &mut fmt::Formatter<W>) -> fmt::Result {
        f.pad(self.line().as_str())
    }
}

// Writes a line on the slot of errors. Nothing is done about a failure there.
fn write_line<D: Desk>(desk: &mut D, line: &[u8])
    ensures { WritesLine line.now (D.outside desk.old) (D.outside desk.new) }
{
    let _ = write_whole(desk, Slot::Errors, line);
}

/// Tells why a command isn't done, and answers its status. It takes no memory.
pub fn write_error_line<D: Desk>(desk: &mut D, status: Status) -> Status
    ensures { Tells status result (D.outside desk.old) (D.outside desk.new) }
{
    write_line(desk, status.line().as_str().as_bytes());
    status
}
