//! What a run and an audit have in common: the words of a command and its files, the statuses of a call, the starting of slots, the settings,
//! the heads of both incoming captures, and the line about what went wrong.
#![tactic(auto)]

mod command;
mod errors;
mod heads;
mod names;
mod open;
mod status;
mod stops;

pub use command::{Command, read_words};
pub use errors::{ErrorLine, write_error_line};
pub use heads::{begin, read_settings_file};
pub use names::{AuditNames, FileNames};
pub use open::start_slot;
pub use status::Status;
