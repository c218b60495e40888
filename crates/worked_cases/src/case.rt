// A worked case: files that a run is given, and files that say what it must answer and write.
use gate_command::realm_gate;
use gate_desk::{Desk, Slot};
use memory_desks::{CountedDesk, MemoryDesk};
use run_setup::Status;
use std::alloc::{AllocError, Global};
use std::{fs, io};

/// The words of a run. A desk in memory takes any names.
pub(crate) const WORDS: &str = "run settings left right left_out right_out -";

// A word. `_` stands for an empty one.
fn word_of(alloc: Global, word: &str) -> Result<String, AllocError> {
    if word == "_" {
        return Ok(String::new(alloc));
    }
    String::from_str(alloc, word)
}

/// The words of a line, which stand between blanks.
pub(crate) fn words_of(alloc: Global, line: &str) -> Result<Vec<String>, AllocError> {
    let mut words = Vec::new(alloc);
    for word in line.split_whitespace() {
        words.push(word_of(alloc, word)?)?;
    }
    Ok(words)
}

/// Runs the gateway. Nothing is claimed here of what it answers, since the cases compare that.
pub(crate) fn run_gate<D: Desk>(alloc: Global, words: &[String], desk: &mut D) -> Status {
    realm_gate(alloc, words, desk)
}

/// A file of a case. Its name begins with the case's.
pub(crate) fn read_part(rt: &HostRuntime, name: &str, part: &str) -> io::Result<Vec<u8>> {
    let path = format!(in rt.alloc(); "{name}.{part}")?;
    fs::read(rt, path.as_str())
}

/// Whether a file of a case holds these octets.
pub(crate) fn is_part(rt: &HostRuntime, name: &str, part: &str, octets: &[u8]) -> io::Result<bool> {
    let wanted = read_part(rt, name, part)?;
    Ok(wanted.as_slice() == octets)
}

fn is_front_of_part(rt: &HostRuntime, name: &str, part: &str, octets: &[u8]) -> io::Result<bool> {
    let wanted = read_part(rt, name, part)?;
    Ok(wanted.starts_with(octets))
}

/// A desk that holds these captures, and the settings of a case.
pub(crate) fn desk_over(
    rt: &HostRuntime,
    name: &str,
    left: Vec<u8>,
    right: Vec<u8>,
) -> io::Result<MemoryDesk> {
    let settings = read_part(rt, name, "settings.toml")?;
    match MemoryDesk::new(rt.alloc(), settings, left, right) {
        Ok(desk) => Ok(desk),
        Err(_) => Err(io::Error::from(AllocError)),
    }
}

// A desk that holds what the run is given.
fn desk_of(rt: &HostRuntime, name: &str) -> io::Result<MemoryDesk> {
    let left = read_part(rt, name, "left.pcap")?;
    let right = read_part(rt, name, "right.pcap")?;
    desk_over(rt, name, left, right)
}

/// Whether a status is that of a case.
pub(crate) fn has_status(rt: &HostRuntime, name: &str, status: Status) -> io::Result<bool> {
    let code = status.code();
    let line = format!(in rt.alloc(); "{code}\n")?;
    is_part(rt, name, "status", line.as_bytes())
}

// Whether each output is what the case says.
fn has_outputs(rt: &HostRuntime, name: &str, desk: &MemoryDesk) -> io::Result<bool> {
    let left = is_part(rt, name, "left_out.pcap", desk.output(Slot::LeftOut))?;
    let right = is_part(rt, name, "right_out.pcap", desk.output(Slot::RightOut))?;
    let report = is_part(rt, name, "report.txt", desk.output(Slot::Report))?;
    let errors = is_part(rt, name, "stderr", desk.output(Slot::Errors))?;
    Ok(left && right && report && errors)
}

// Whether each capture and the report is a front of what the case says.
fn has_fronts(rt: &HostRuntime, name: &str, desk: &CountedDesk) -> io::Result<bool> {
    let left = is_front_of_part(rt, name, "left_out.pcap", desk.output(Slot::LeftOut))?;
    let right = is_front_of_part(rt, name, "right_out.pcap", desk.output(Slot::RightOut))?;
    let report = is_front_of_part(rt, name, "report.txt", desk.output(Slot::Report))?;
    Ok(left && right && report)
}

// Whether a run over this desk answers and writes what the case says.
fn is_passed(rt: &HostRuntime, name: &str, desk: &mut MemoryDesk) -> io::Result<bool> {
    let words = words_of(rt.alloc(), WORDS)?;
    let status = run_gate(rt.alloc(), &words, desk);
    Ok(has_outputs(rt, name, desk)? && has_status(rt, name, status)?)
}

/// Whether the run of a case answers and writes what it must, octet for octet.
pub(crate) fn passes(rt: &HostRuntime, name: &str) -> io::Result<bool> {
    is_passed(rt, name, &mut desk_of(rt, name)?)
}

// The status of a run over this desk, and whether each capture and the report is a front of what the case says.
fn run_in_front(
    rt: &HostRuntime,
    name: &str,
    desk: &mut CountedDesk,
) -> io::Result<(Status, bool)> {
    let words = words_of(rt.alloc(), WORDS)?;
    let status = run_gate(rt.alloc(), &words, desk);
    Ok((status, has_fronts(rt, name, desk)?))
}

/// The status of the run of a case of which one call of the desk fails, and whether each capture and the report is a front
/// of what the whole run writes.
pub(crate) fn run_failing(rt: &HostRuntime, name: &str, call: u64) -> io::Result<(Status, bool)> {
    let failing = vec![in rt.alloc(); call]?;
    run_in_front(rt, name, &mut CountedDesk::new(desk_of(rt, name)?, failing))
}
