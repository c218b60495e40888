//! Sessions that are tracked: control connections of FTP, and connections of DNS over TCP, whose lists learn what their units name
//! (RFC 2694, RFC 7766).
#![tactic(auto)]

mod engine;
mod kinds;
mod laws;
mod learned;
mod segments;
mod session;

pub use laws::compact_worlds_answer;
pub use session::{AnySession, Passing};
