//! What is wanted of one event, and the records of a given capture, which are judged one by one against it.
#![tactic(auto)]

mod came;
mod cutting;
mod expected;
mod pieces;
mod single;

pub use expected::Expected;
pub use pieces::Pieces;
