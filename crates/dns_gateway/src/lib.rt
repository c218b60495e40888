//! The DNS gateway (RFC 2694): the addresses in a message that are renamed, the message with their images, and the octets
//! that are sent for it.
#![tactic(auto)]

mod addresses;
mod renaming;
mod replies;

pub use addresses::addresses_of;
pub use renaming::rename;
pub use replies::{LONGEST_PLAIN, TRUNCATED, reply};
