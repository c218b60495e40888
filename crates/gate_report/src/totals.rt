// The counts of a run.
ghost use Rattle.std.specs.Prelude.{◌≡◌, ◌+◌, ◌≤◌, ◌<◌, ◌^◌};
ghost use Rattle.gate_report.specs.Counts.{nothing_counted, counted, done_line};

use crate::line::Line;
use gate_base::Side;
use verdicts::Verdict;

/// What is counted over a run.
#[derive(Clone, Copy, Debug, PartialEq, Eq)]
pub struct Totals {
    /// The events so far.
    pub events: u64,
    /// Those that passed.
    pub passed: u64,
    /// Those that were refused.
    pub refused: u64,
    /// The frames that were sent to the left realm.
    pub to_left: u64,
    /// The frames that were sent to the right realm.
    pub to_right: u64,
}

impl Totals {
    /// Nothing is counted.
    pub fn new() -> Totals
        ensures { result ≡ nothing_counted }
    {
        Totals {
            events: 0,
            passed: 0,
            refused: 0,
            to_left: 0,
            to_right: 0,
        }
    }

    /// The totals with one event more, a frame of the side with this verdict, for which so many frames were sent to the other.
    pub fn count(self, side: Side, verdict: Verdict, frames: u32) -> Totals
        requires events { self.events + 1 < 2 ^ 64 }
        requires passed { self.passed ≤ self.events }
        requires refused { self.refused ≤ self.events }
        requires to_left { self.to_left + frames < 2 ^ 64 }
        requires to_right { self.to_right + frames < 2 ^ 64 }
        ensures { result ≡ counted self side verdict frames }
    {
        let (passed, refused) = match verdict {
            Verdict::Pass => (1, 0),
            Verdict::Refused(_) => (0, 1),
            Verdict::Held => (0, 0),
        };
        let frames = u64::from(frames);
        let (to_left, to_right) = match side {
            Side::Left => (0, frames),
            Side::Right => (frames, 0),
        };
        Totals {
            events: self.events + 1,
            passed: self.passed + passed,
            refused: self.refused + refused,
            to_left: self.to_left + to_left,
            to_right: self.to_right + to_right,
        }
    }

    /// The last line of a report, with the greatest number of changed lines that ever waited to be acknowledged.
    pub fn last_line(self, pending: u64) -> Line
        ensures { result ≡ done_line self pending }
    {
        Line::Done {
            totals: self,
            pending,
        }
    }
}
