// Lines in text.
ghost use Rattle.std.specs.Prelude.{◌≡◌, ◌+◌, ◌≤◌, ◌++◌, drop, length, decimal};
ghost use Rattle.gate_base.specs.Prelude.{name_of};
ghost use Rattle.verdicts.specs.Prelude.{verdict_name};
ghost use Rattle.gate_settings.specs.declared.settings.ReportForm.TheVariants.{Text};
ghost use Rattle.gate_report.specs.Lines.{line_octets, event_text, done_text};

use crate::line::Line;
use crate::totals::Totals;
use gate_base::Side;
use itoa::write_digits;
use verdicts::Verdict;

/// The room in which a line is put together, in octets.
pub const LINE: usize = 192;

/// Puts a line in text, with its line feed, at the end of a room of 192 octets, and answers where it begins.
pub fn text_line(line: &Line, room: &mut [u8]) -> usize
    requires { length room.old ≡ LINE }
    ensures begin { result ≤ LINE }
    ensures octets { drop result room.new ≡ line_octets Text line.now }
{
    match *line {
        Line::Event {
            number,
            side,
            moment,
            verdict,
            frames,
        } => put_event(room, number, side, moment.0, verdict, frames),
        Line::Done { totals, pending } => put_done(room, totals, pending),
    }
}

/// Puts the line of an event at the end of the room, its last piece first, and answers where it begins.
#[tactic(auto, using(crate::proofs::Lines::side_short, crate::proofs::Lines::verdict_short))]
fn put_event(
    room: &mut [u8],
    number: u64,
    side: Side,
    moment: u64,
    verdict: Verdict,
    frames: u32,
) -> usize
    requires { length room.old ≡ LINE }
    ensures begin { result ≤ LINE }
    ensures line { drop result room.new
        ≡ event_text number side moment verdict frames }
{
    let end = put_word_before(room, LINE, "\n");
    let end = put_number_before(room, end, u64::from(frames));
    let end = put_word_before(room, end, " ");
    let end = put_verdict_before(room, end, verdict);
    let end = put_word_before(room, end, " ");
    let end = put_number_before(room, end, moment);
    let end = put_word_before(room, end, " ");
    let end = put_side_before(room, end, side);
    let end = put_word_before(room, end, " ");
    put_number_before(room, end, number)
}

/// Puts the name of a verdict before a place, and answers where it begins. That of one that passes is a copy of so many octets.
#[inline(always)]
fn put_verdict_before(room: &mut [u8], end: usize, verdict: Verdict) -> usize
    requires { (length (verdict_name verdict) ≤ end) × (end ≤ length room.old) }
    ensures begin { result + length (verdict_name verdict) ≡ end }
    ensures octets { drop result room.new
        ≡ verdict_name verdict ++ drop end room.old }
{
    match verdict {
        Verdict::Pass => put_word_before(room, end, "pass"),
        _ => put_word_before(room, end, verdict.name()),
    }
}

/// Puts the name of a side before a place, and answers where it begins. Each is a copy of so many octets.
#[inline(always)]
fn put_side_before(room: &mut [u8], end: usize, side: Side) -> usize
    requires { (length (name_of side) ≤ end) × (end ≤ length room.old) }
    ensures begin { result + length (name_of side) ≡ end }
    ensures octets { drop result room.new ≡ name_of side ++ drop end room.old }
{
    match side {
        Side::Left => put_word_before(room, end, "left"),
        Side::Right => put_word_before(room, end, "right"),
    }
}

/// Puts a number before a place, and answers where it begins.
fn put_number_before(room: &mut [u8], end: usize, number: u64) -> usize
    requires { (20 ≤ end) × (end ≤ length room.old) }
    ensures begin { (end ≤ result + 20) × (result ≤ end) }
    ensures octets { drop result room.new ≡ decimal number ++ drop end room.old }
{
    write_digits(number, room, end)
}

/// Puts a word before a place, and answers where it begins.
fn put_word_before(room: &mut [u8], end: usize, word: &str) -> usize
    requires { (length word.now ≤ end) × (end ≤ length room.old) }
    ensures begin { result + length word.now ≡ end }
    ensures octets { drop result room.new ≡ word.now ++ drop end room.old }
{
    let begin = end - word.len();
    room[begin..end].copy_from_slice(word.as_bytes());
    begin
}

/// Puts the last line at the end of the room, its last piece first, and answers where it begins.
fn put_done(room: &mut [u8], totals: Totals, pending: u64) -> usize
    requires { length room.old ≡ LINE }
    ensures begin { result ≤ LINE }
    ensures line { drop result room.new ≡ done_text totals pending }
{
    let end = put_word_before(room, LINE, "\n");
    let end = put_field_before(room, end, " pending=", pending);
    let end = put_field_before(room, end, " to_right=", totals.to_right);
    let end = put_field_before(room, end, " to_left=", totals.to_left);
    let end = put_field_before(room, end, " refused=", totals.refused);
    let end = put_field_before(room, end, " passed=", totals.passed);
    put_field_before(room, end, "done events=", totals.events)
}

/// Puts a label and a number before a place, and answers where they begin.
fn put_field_before(room: &mut [u8], end: usize, label: &str, value: u64) -> usize
    requires { (length label.now + 20 ≤ end) × (end ≤ length room.old) }
    ensures begin { (end ≤ result + length label.now + 20) × (result ≤ end) }
    ensures octets { drop result room.new
        ≡ label.now ++ (decimal value ++ drop end room.old) }
{
    let begin = put_number_before(room, end, value);
    put_word_before(room, begin, label)
}
