// Lines in JSON.
ghost use Rattle.std.specs.Prelude.{◌≡◌, OnOk};
ghost use Rattle.serde_json.specs.Events.{SendsValue};
ghost use Rattle.gate_settings.specs.declared.settings.ReportForm.TheVariants.{Json};
ghost use Rattle.gate_report.specs.Lines.{line_octets};
ghost use Rattle.gate_report.specs.Values.{value_of, event_value, done_value};

use crate::line::Line;
use crate::totals::Totals;
use gate_base::Side;
use serde::{Described, Serialize, Serializer};
use std::alloc::{AllocError, Global};
use verdicts::Verdict;

/// Puts a line in JSON, with its line feed, in place of other octets. By a call of its own, so that a line in text pays nothing for it.
#[inline(never)]
pub fn put_json(alloc: Global, line: &Line, octets: &mut Vec<u8>) -> Result<(), AllocError>
    ensures { OnOk result (octets.new.items ≡ line_octets Json line.now) }
{
    let mut made = match serde_json::to_vec(alloc, line) {
        Ok(made) => made,
        Err(_) => return Err(AllocError),
    };
    made.push(b'\n')?;
    *octets = made;
    Ok(())
}

impl Described for Line {
    ghost writes = { λ line. SendsValue (value_of line) };
}

impl Serialize for Line {
    fn serialize<S: Serializer>(&self, out: &mut S) -> Result<(), S::Error> {
        match *self {
            Line::Event {
                number,
                side,
                moment,
                verdict,
                frames,
            } => send_event(out, number, side, moment.0, verdict, frames),
            Line::Done { totals, pending } => send_done(out, totals, pending),
        }
    }
}

// An event's line, key by key.
#[inline(always)]
fn send_event<S: Serializer>(
    out: &mut S,
    number: u64,
    side: Side,
    moment: u64,
    verdict: Verdict,
    frames: u32,
) -> Result<(), S::Error>
    ensures { OnOk result (SendsValue (event_value number side moment verdict frames)
        (S.written out.old) (S.written out.new)) }
{
    out.begin_map(Some(5))?;
    out.key("event")?;
    out.u64(number)?;
    out.key("frames")?;
    out.u64(u64::from(frames))?;
    out.key("moment")?;
    out.u64(moment)?;
    out.key("side")?;
    out.str(side.name())?;
    out.key("verdict")?;
    out.str(verdict.name())?;
    out.end_map()
}

// The last line, key by key.
fn send_done<S: Serializer>(out: &mut S, totals: Totals, pending: u64) -> Result<(), S::Error>
    ensures { OnOk result (SendsValue (done_value totals pending)
        (S.written out.old) (S.written out.new)) }
{
    out.begin_map(Some(7))?;
    out.key("done")?;
    out.bool(true)?;
    out.key("events")?;
    out.u64(totals.events)?;
    out.key("passed")?;
    out.u64(totals.passed)?;
    out.key("pending")?;
    out.u64(pending)?;
    out.key("refused")?;
    out.u64(totals.refused)?;
    out.key("to_left")?;
    out.u64(totals.to_left)?;
    out.key("to_right")?;
    out.u64(totals.to_right)?;
    out.end_map()
}
