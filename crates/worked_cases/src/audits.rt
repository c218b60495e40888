// Audits of the files of worked cases, as they are or with one octet changed.
use crate::case::{read_part, run_gate, words_of};
use gate_desk::Slot;
use memory_desks::{Given, MemoryDesk};
use std::alloc::AllocError;
use std::io;

const WORDS: &str = "audit settings left right left_given right_given report_given -";

const UNLAWFUL: u8 = 9;

/// The settings and both incoming captures of a case, or both outgoing captures and the report.
#[derive(Drop)]
struct Files {
    first: Vec<u8>,
    second: Vec<u8>,
    third: Vec<u8>,
}

// A part of a case. Where the change names it, the octet at its offset is another one.
fn changed_part(rt: &HostRuntime, name: &str, part: &str, change: &str) -> io::Result<Vec<u8>> {
    let mut octets = read_part(rt, name, part)?;
    if let Some((changed, offset)) = change.split_once(' ')
        && changed == part
        && let Ok(offset) = offset.parse::<usize>()
        && let Some(octet) = octets.get_mut(offset)
    {
        *octet ^= 1;
    }
    Ok(octets)
}

fn files_of(
    rt: &HostRuntime,
    name: &str,
    parts: (&str, &str, &str),
    change: &str,
) -> io::Result<Files> {
    let first = changed_part(rt, name, parts.0, change)?;
    let second = changed_part(rt, name, parts.1, change)?;
    let third = changed_part(rt, name, parts.2, change)?;
    Ok(Files {
        first,
        second,
        third,
    })
}

// A desk over what an audit is given.
fn desk_of(rt: &HostRuntime, incoming: Files, given: Files) -> io::Result<MemoryDesk> {
    let Files {
        first: settings,
        second: left,
        third: right,
    } = incoming;
    let Files {
        first: left_given,
        second: right_given,
        third: report_given,
    } = given;
    let given = Given {
        left: left_given,
        right: right_given,
        report: report_given,
    };
    match MemoryDesk::make_audit(rt.alloc(), settings, left, right, given) {
        Ok(desk) => Ok(desk),
        Err(_) => Err(io::Error::from(AllocError)),
    }
}

fn desk_over(rt: &HostRuntime, name: &str, change: &str) -> io::Result<MemoryDesk> {
    let incoming = files_of(
        rt,
        name,
        ("settings.toml", "left.pcap", "right.pcap"),
        change,
    )?;
    let given = files_of(
        rt,
        name,
        ("left_out.pcap", "right_out.pcap", "report.txt"),
        change,
    )?;
    desk_of(rt, incoming, given)
}

// Whether an audit over this desk writes this line, and ends with the status that is told for it.
fn is_answered(rt: &HostRuntime, answer: &str, desk: &mut MemoryDesk) -> io::Result<bool> {
    let words = words_of(rt.alloc(), WORDS)?;
    let status = run_gate(rt.alloc(), &words, desk);
    let code = if answer.starts_with("lawful") {
        0
    } else {
        UNLAWFUL
    };
    let written = desk.output(Slot::Report).strip_suffix(b"\n") == Some(answer.as_bytes());
    Ok(written && status.code() == code)
}

/// Whether the audit of a case's files answers what stands behind an equals sign: the files as they are, or with the octet changed at
/// the offset of a part that is named behind the case.
pub(crate) fn is_audited(rt: &HostRuntime, line: &str) -> io::Result<bool> {
    let Some((case, answer)) = line.split_once(" = ") else {
        return Ok(false);
    };
    let (name, change) = match case.split_once(' ') {
        Some(parts) => parts,
        None => (case, ""),
    };
    is_answered(rt, answer, &mut desk_over(rt, name, change)?)
}
