//! The events of two captures: the records of both sides, merged by their stamps.
#![tactic(auto)]

mod laws;
mod merge;
mod order;
mod sides;
mod stop;

pub use laws::merges_by_stamps;
pub use merge::Merge;
pub use order::Last;
pub use stop::MergeStop;
