//! The addresses inside object identifiers of SNMP messages, by rules, and their renaming by an advanced gateway (RFC 2962, 4.2).
#![tactic(auto)]

mod arcs;
mod elements;
mod head;
mod identifier;
mod laws;
mod numbers;
mod put;
mod rename;

pub use identifier::address_in;
pub use laws::{no_rule_is_basic, no_rule_keeps_length};
pub use rename::rename_into;
