//! Fragments of IPv4 datagrams, joined in whatever order they come (RFC 791, 3.2; RFC 815).
#![tactic(auto)]

mod buffer;
mod fragment;
mod front;
mod joiner;
mod laws;
mod part;
mod taken;
mod whole;

pub use front::{ask, joined, open_joiner};
pub use joiner::Joiner;
pub use laws::{cuts_are_joined, frames_arrive, known_state_suffices};
pub use taken::Taken;
