//! Sessions over whole lists of octets: control connections of FTP, and connections of DNS over TCP, whose lists learn what their units
//! name (RFC 2694, RFC 7766). An auditor asks them: they stand on nothing that the gateway's own sessions keep.
#![tactic(auto)]

mod engine;
mod kinds;
mod laws;
mod learned;
mod session;

pub use laws::audited_sessions_are_whole;
pub use session::AuditedSession;
