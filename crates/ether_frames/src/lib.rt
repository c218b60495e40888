//! Ethernet frames (RFC 894), as views of their octets.
#![tactic(auto)]

mod datagram;
mod head;
mod view;

pub use datagram::octets_in;
pub use head::{put_head, reads_back};
pub use view::EtherView;
