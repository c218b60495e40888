//! Rows under keys, in the order in which they were put in, each of which may end at a moment. A look-up costs a constant on the mean, and
//! what ends is found without a look at the rest.
#![tactic(auto)]

mod alarms;
mod buckets;
mod chains;
mod place_or_none;
mod row;
mod rows;
mod seed;
mod store;

pub use row::Row;
pub use rows::Rows;
pub use seed::Seed;
