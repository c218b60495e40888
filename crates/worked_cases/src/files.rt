// Runs over real files.
use crate::case::{is_part, words_of};
use file_desk::FileDesk;
use gate_base::read_number;
use gate_command::carry_out;
use std::{fs, io};

/// A device that takes nothing.
const FULL: &str = "/dev/full";

/// The names of the outputs of a run that is done.
const OUTPUTS: [&str; 3] = ["left_out.pcap", "right_out.pcap", "report.txt"];

/// Where a run writes its outputs, before their names.
const WRITTEN: &str = "written.";

fn exit_status(rt: &HostRuntime, words: &str) -> io::Result<u8> {
    let words = words_of(rt.alloc(), words)?;
    Ok(carry_out(rt.alloc(), &words, &mut FileDesk::new(*rt, 0)))
}

// Whether a file that was written is that of the case.
fn is_written(rt: &HostRuntime, case: &str, output: &str) -> io::Result<bool> {
    let path = format!(in rt.alloc(); "{WRITTEN}{output}")?;
    let octets = fs::read(rt, path.as_str())?;
    is_part(rt, case, output, &octets)
}

// Whether all outputs are those of the case.
fn are_written(rt: &HostRuntime, case: &str) -> io::Result<bool> {
    for output in OUTPUTS {
        if !is_written(rt, case, output)? {
            return Ok(false);
        }
    }
    Ok(true)
}

// Whether the device isn't there that the words name.
fn lacks_device(rt: &HostRuntime, words: &str) -> bool {
    words.contains(FULL) && fs::open(rt, FULL).is_err()
}

// Whether the run with these words ends with this status, and writes what the case says where it is done.
fn ends_with(rt: &HostRuntime, code: u8, case: &str, words: &str) -> io::Result<bool> {
    if lacks_device(rt, words) {
        return Ok(true);
    }
    if exit_status(rt, words)? != code {
        return Ok(false);
    }
    if code == 0 {
        are_written(rt, case)
    } else {
        Ok(true)
    }
}

/// Whether the run of a line ends with its status: the status, the case, and the words.
pub(crate) fn is_run(rt: &HostRuntime, line: &str) -> io::Result<bool> {
    let mut parts = line.splitn(3, ' ');
    match (parts.next(), parts.next(), parts.next()) {
        (Some(code), Some(case), Some(words)) => match read_number(code.as_bytes()) {
            Some(code) => ends_with(rt, code, case, words),
            None => Ok(false),
        },
        _ => Ok(false),
    }
}
