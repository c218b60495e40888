use crate::totals::Totals;
use gate_base::{Moment, Side};
use verdicts::Verdict;

/// What a report says: one line for each event, and a last line.
#[derive(Clone, Copy, Debug, PartialEq, Eq)]
pub enum Line {
    /// What became of an event.
    Event {
        /// The event's number, from 1.
        number: u64,
        /// The realm from which the frame came.
        side: Side,
        /// The event's moment.
        moment: Moment,
        /// Whether the frame passed, and if not, why.
        verdict: Verdict,
        /// The number of outgoing frames.
        frames: u32,
    },
    /// What was counted over all events.
    Done {
        /// The counts.
        totals: Totals,
        /// The greatest number of changed lines that ever waited to be acknowledged.
        pending: u64,
    },
}
