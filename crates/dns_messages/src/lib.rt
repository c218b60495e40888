//! DNS messages (RFC 1035, 4): what their octets are, and their one spelling with names as short as they can be.
#![tactic(auto)]

mod form;
mod lists;
mod message;
mod reading;
mod stop;
mod writing;

pub use lists::Resources;
pub use message::{Content, Message, Question, Resource};
pub use reading::read_message;
pub use stop::WriteStop;
pub use writing::write_message;
