//! Datagrams that no session takes: their addresses are used, and the addresses in what they carry are renamed.
#![tactic(auto)]

mod addresses;
mod dns;
mod keys;
mod plain;
mod snmp;
mod udp;

pub use addresses::{Way, address_refusal, lacks_alias, use_address};
pub use dns::{take_dns, use_all};
pub use keys::key_of;
pub use plain::{pass_plain, take_plain};
pub use snmp::take_snmp;
pub use udp::UdpDatagram;
