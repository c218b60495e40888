//! The outside as the program sees it: ten slots that are started, read and written, as a trait, and a desk over
//! octets in memory that discards what is written.
#![tactic(auto)]

mod desk;
mod discarding_desk;
mod slot;
mod source;
mod whole;

pub use desk::{Desk, Failed};
pub use discarding_desk::DiscardingDesk;
pub use slot::{Access, PerSlot, Slot};
pub use source::Source;
pub use whole::{TakeStop, read_full, read_up_to, write_whole};
