// Checks beside the worked cases.
use crate::case::{run_failing, run_gate, words_of};
use gate_desk::{Desk, Slot};
use memory_desks::MemoryDesk;
use run_setup::Status;
use std::alloc::{AllocError, Global};
use std::io;

/// More calls than a case has.
const MOST_CALLS: u64 = 10_000;

const READ_FAULT: u8 = 5;

const WRITE_FAULT: u8 = 6;

const OPEN_FAULT: u8 = 7;

const USAGE: &[u8] =
    b"usage: run SETTINGS LEFT_IN RIGHT_IN LEFT_OUT RIGHT_OUT REPORT | make NUMBER COUNT REPORT | audit SETTINGS LEFT_IN RIGHT_IN LEFT_GIVEN RIGHT_GIVEN REPORT_GIVEN REPORT\n";

// A status that names a call that failed.
fn names_failure(status: Status) -> bool {
    let code = status.code();
    code == READ_FAULT || code == WRITE_FAULT || code == OPEN_FAULT
}

/// Fails the first call of the desk, then the second, and so on until the run is done: each time the status must name a
/// failure, and each output be a front of what the whole run writes. Answers how many calls failed, if all was right.
pub(crate) fn failing_calls(rt: &HostRuntime, name: &str) -> io::Result<Option<u64>> {
    for call in 1..MOST_CALLS {
        let (status, in_front) = run_failing(rt, name, call)?;
        if matches!(status, Status::Done) {
            return Ok(Some(call - 1));
        }
        if !in_front || !names_failure(status) {
            return Ok(None);
        }
    }
    Ok(None)
}

// A desk with nothing to be read.
fn empty_desk(alloc: Global) -> Result<MemoryDesk, AllocError> {
    match MemoryDesk::new(alloc, Vec::new(alloc), Vec::new(alloc), Vec::new(alloc)) {
        Ok(desk) => Ok(desk),
        Err(_) => Err(AllocError),
    }
}

// The status of a command over this desk.
fn status_of<D: Desk>(alloc: Global, line: &str, desk: &mut D) -> io::Result<Status> {
    let words = words_of(alloc, line)?;
    Ok(run_gate(alloc, &words, desk))
}

// Whether these words over this desk are answered by the one usage line.
fn is_answered(alloc: Global, line: &str, desk: &mut MemoryDesk) -> io::Result<bool> {
    let status = status_of(alloc, line, desk)?;
    Ok(matches!(status, Status::Usage) && desk.output(Slot::Errors) == USAGE)
}

/// Whether the words of a line, which are no command, are answered by the one usage line.
pub(crate) fn is_no_command(rt: &HostRuntime, line: &str) -> io::Result<bool> {
    is_answered(rt.alloc(), line, &mut empty_desk(rt.alloc())?)
}

// Whether nothing but this line was written, on the report.
fn has_line(desk: &MemoryDesk, line: &str) -> bool {
    desk.output(Slot::LeftOut).is_empty()
        && desk.output(Slot::RightOut).is_empty()
        && desk.output(Slot::Report).strip_suffix(b"\n") == Some(line.as_bytes())
}

// Whether a make over this desk writes just this line, on the report alone.
fn makes(alloc: Global, words: &str, line: &str, desk: &mut MemoryDesk) -> io::Result<bool> {
    let status = status_of(alloc, words, desk)?;
    Ok(matches!(status, Status::Done) && has_line(desk, line))
}

/// Whether the words of a make before an equals sign write the line behind it.
pub(crate) fn is_made(rt: &HostRuntime, line: &str) -> io::Result<bool> {
    match line.split_once(" = ") {
        Some((words, line)) => makes(rt.alloc(), words, line, &mut empty_desk(rt.alloc())?),
        None => Ok(false),
    }
}
