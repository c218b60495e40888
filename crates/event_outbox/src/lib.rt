//! The datagrams that go out at an event, one behind the other in room that is reserved once.
#![tactic(auto)]

mod outbox;
mod segment;

pub use outbox::{put_error, put_rebuilt, put_renamed, put_snmp, put_snmp_by_rules};
pub use resegment::{Datagrams, Scratch};
pub use segment::Segment;
