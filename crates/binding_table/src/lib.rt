//! The bindings of hosts to the addresses by which the other realm knows them (RFC 2663, 4.3).
#![tactic(auto)]

mod aliases;
mod binding;
mod entries;
mod laws;
mod plan;
mod seen_addresses;
mod table;

pub use binding::Crossing;
pub use laws::{crosses_back, keeps_apart, keeps_known, keeps_others, sees_used};
pub use seen_addresses::{MOST_SEEN, SeenAddresses};
pub use table::Table;
