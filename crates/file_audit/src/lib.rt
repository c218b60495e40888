//! The audit of given files over a desk: two captures and a report that some gateway made, beside the events of two captures.
#![tactic(auto)]

mod ahead;
mod event;
mod events;
mod expect;
mod given;
mod line;
mod records;

pub use events::audit_events;
pub use given::GivenFiles;
