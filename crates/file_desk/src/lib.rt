//! The desk over files: what is read ahead, what is gathered before it is written, and what fails.
#![tactic(auto)]

mod desk;
mod gathered;
mod place;

pub use desk::FileDesk;
