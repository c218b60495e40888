//! The auditor's engine: what is wanted of each event, by sessions over whole lists, and whether the records of a given capture are that.
//! It stands on nothing that the gateway's own sessions keep.
#![tactic(auto)]

mod auditor;

pub use auditor::Auditor;
