//! What becomes of a frame, and why one goes nowhere.
#![tactic(auto)]

mod refusal;
mod verdict;

pub use refusal::Refusal;
pub use verdict::Verdict;
