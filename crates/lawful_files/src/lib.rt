//! Which outgoing captures and reports are lawful for two incoming captures: those that some gateway could have made that keeps
//! to the definitions, but may cut the octets of one event otherwise.
#![tactic(auto)]

mod laws;
mod reason;

pub use laws::{
    audit_goes_on, one_reason_at_most, own_list_is_lawful, reasons_are_found, records_are_judged,
    wanted_is_sound, wanted_reads_alike,
};
pub use reason::AuditReason;
