// Captures that are cut off or damaged, each given on the left, on the right, and on both sides.
use crate::case::{WORDS, desk_over, has_status, is_part, read_part, run_gate, words_of};
use gate_base::{Addr, put_u32, read_number, read_quad};
use gate_desk::{Desk, Slot};
use memory_desks::MemoryDesk;
use std::io;

/// The case whose captures are heads alone, and whose outgoing captures are what stands written behind good heads.
const HEADS: &str = "no_events";

/// A case whose status is that of a fault in a capture.
const TORN: &str = "capture_torn";

// One damage: a case; a place in its left capture; the octets that are written there, or none where the capture ends there;
// and the fault that this makes, with its offset.
#[derive(Drop)]
struct Damage<'a> {
    case: &'a str,
    place: u8,
    octets: Option<Addr>,
    fault: &'a str,
    offset: &'a str,
}

fn damage_of(line: &str) -> Option<Damage<'_>> {
    let mut words = line.split_whitespace();
    let case = words.next()?;
    let place = read_number(words.next()?.as_bytes())?;
    let octets = read_quad(words.next()?.as_bytes());
    let fault = words.next()?;
    let offset = words.next()?;
    Some(Damage {
        case,
        place,
        octets,
        fault,
        offset,
    })
}

fn damaged(rt: &HostRuntime, damage: &Damage<'_>) -> io::Result<Vec<u8>> {
    let mut capture = read_part(rt, damage.case, "left.pcap")?;
    let place = usize::from(damage.place);
    match damage.octets {
        Some(octets) => {
            if place + 4 <= capture.len() {
                put_u32(&mut capture, place, octets.0);
            }
        }
        None => capture.truncate(place),
    }
    Ok(capture)
}

// Whether each outgoing capture holds its head alone, or nothing where a head is faulty.
fn has_heads(rt: &HostRuntime, desk: &MemoryDesk, offset: &str) -> io::Result<bool> {
    let left = desk.output(Slot::LeftOut);
    let right = desk.output(Slot::RightOut);
    if offset == "0" {
        return Ok(left.is_empty() && right.is_empty());
    }
    let left = is_part(rt, HEADS, "left_out.pcap", left)?;
    let right = is_part(rt, HEADS, "right_out.pcap", right)?;
    Ok(left && right)
}

// The line of an error of this side.
fn line_of(rt: &HostRuntime, damage: &Damage<'_>, side: &str) -> io::Result<String> {
    let fault = damage.fault;
    let offset = damage.offset;
    let line = format!(in rt.alloc(); "capture {side}: {fault} at {offset}\n")?;
    Ok(line)
}

// Whether a run ended with the line of an error, and without one of an event.
fn has_line(desk: &MemoryDesk, line: &str) -> bool {
    desk.output(Slot::Errors) == line.as_bytes() && desk.output(Slot::Report).is_empty()
}

// Whether a run told the damage of this side, and wrote no more than it may.
fn has_told(
    rt: &HostRuntime,
    desk: &MemoryDesk,
    damage: &Damage<'_>,
    side: &str,
) -> io::Result<bool> {
    let line = line_of(rt, damage, side)?;
    let heads = has_heads(rt, desk, damage.offset)?;
    Ok(heads && has_line(desk, &line))
}

// Whether a run over this desk tells the damage of this side.
fn tells(
    rt: &HostRuntime,
    desk: &mut MemoryDesk,
    damage: &Damage<'_>,
    side: &str,
) -> io::Result<bool> {
    let words = words_of(rt.alloc(), WORDS)?;
    let status = run_gate(rt.alloc(), &words, desk);
    if !has_told(rt, desk, damage, side)? {
        return Ok(false);
    }
    has_status(rt, TORN, status)
}

/// Whether the damaged capture of a line is told on the left, on the right, and on both sides, of which the left one is
/// met first.
pub(crate) fn is_told(rt: &HostRuntime, line: &str) -> io::Result<bool> {
    match damage_of(line) {
        Some(damage) => is_damage_told(rt, &damage),
        None => Ok(false),
    }
}

fn is_damage_told(rt: &HostRuntime, damage: &Damage<'_>) -> io::Result<bool> {
    let left = on_left(rt, damage)?;
    let right = on_right(rt, damage)?;
    let both = on_both(rt, damage)?;
    Ok(left && right && both)
}

fn on_left(rt: &HostRuntime, damage: &Damage<'_>) -> io::Result<bool> {
    let left = damaged(rt, damage)?;
    let right = read_part(rt, HEADS, "right.pcap")?;
    tells(rt, &mut desk_over(rt, HEADS, left, right)?, damage, "left")
}

fn on_right(rt: &HostRuntime, damage: &Damage<'_>) -> io::Result<bool> {
    let left = read_part(rt, HEADS, "left.pcap")?;
    let right = damaged(rt, damage)?;
    tells(rt, &mut desk_over(rt, HEADS, left, right)?, damage, "right")
}

fn on_both(rt: &HostRuntime, damage: &Damage<'_>) -> io::Result<bool> {
    let left = damaged(rt, damage)?;
    let right = damaged(rt, damage)?;
    tells(rt, &mut desk_over(rt, HEADS, left, right)?, damage, "left")
}
