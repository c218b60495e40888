//! The rules that say where object identifiers hold addresses, sorted, so that the first of many is found in few steps.
#![tactic(auto)]

mod sorted;

pub use sorted::{Addresses, Compared, Identifier, SortedRules, order_of};
