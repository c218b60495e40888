//! The audit as a command: given captures and their report are lawful for two incoming captures, or this is the first reason why not.
#![tactic(auto)]

mod auditing;
mod files;
mod laws;
mod verdict;

pub use auditing::audit;
pub use laws::files_decide;
