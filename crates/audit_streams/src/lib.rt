//! A tracked session that keeps its whole lists, and looks each place up in them (RFC 3022, 4.4).
#![tactic(auto)]

mod host;
mod sent;
mod streams;
mod taking;
mod transcript;

pub use sent::Sent;
pub use streams::WholeStreams;
