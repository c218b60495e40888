//! The lines of a report, as text and as JSON.
#![tactic(auto)]

mod json;
mod line;
mod room;
mod text;
mod totals;

pub use line::Line;
pub use room::LineRoom;
pub use totals::Totals;
