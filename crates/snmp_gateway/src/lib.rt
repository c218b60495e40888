//! SNMP messages of the versions 1 (RFC 1157), 2c (RFC 1901, RFC 3416) and 3 (RFC 3412), and the renaming of the addresses in
//! them by a basic gateway (RFC 2962).
#![tactic(auto)]

mod message;
mod outline;
mod part;
mod rename;
mod tlv;

pub use message::{SnmpKind, SnmpStop, addresses, check};
pub use part::{IP_ADDRESS, OBJECT_IDENTIFIER};
pub use rename::{Lookup, rename_in_place};
pub use tlv::Tlv;
