//! UDP datagrams (RFC 768) and ICMP messages (RFC 792), as views of a datagram's payload.
#![tactic(auto)]

mod icmp;
mod udp;

pub use icmp::{IcmpView, sealed_icmp_is_right};
pub use udp::{UdpView, sealed_udp_is_right};
