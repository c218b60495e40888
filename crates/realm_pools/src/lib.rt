//! The addresses by which one realm knows the hosts of the other.
#![tactic(auto)]

mod places;
mod pool;
mod words;

pub use pool::Pool;
