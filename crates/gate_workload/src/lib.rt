//! A workload for the gateway, made from two numbers: its settings, and a capture for each side.
#![tactic(auto)]

mod capture;
mod datagram;
mod draw;
mod flow;
mod payload;
mod rounds;
mod workload;

pub use datagram::udp_reads_back;
pub use workload::{Workload, captures_are_whole, make};
