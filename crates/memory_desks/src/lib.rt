//! Two desks that hold all their slots in memory: one that fails only where its room ends, and one of which listed calls fail.
#![tactic(auto)]

mod counted_desk;
mod log;
mod memory_desk;
mod sink;

pub use counted_desk::CountedDesk;
pub use memory_desk::{Given, MemoryDesk};
