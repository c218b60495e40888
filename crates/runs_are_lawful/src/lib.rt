//! The law that the files of a run of the gateway are lawful for its captures.
#![tactic(auto)]

mod laws;

pub use laws::own_files_are_lawful;
