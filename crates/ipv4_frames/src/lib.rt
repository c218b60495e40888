//! IPv4 datagrams without options (RFC 791): reading their fields, and writing their headers.
#![tactic(auto)]

mod fault;
mod head;
mod view;

pub use fault::{IpFault, TransportFault};
pub use head::{put_head, reads_back};
pub use view::IpView;
