//! What becomes of an event, whatever its sessions keep: what the gate and the auditor share.
#![tactic(auto)]

mod connection;
mod entries;
mod errors;
mod found;
mod openings;
mod udp;
mod untracked;
mod uses;
mod workspace;

pub use connection::look_up;
pub use errors::take_error;
pub use found::{SegmentFate, SegmentPlan};
pub use openings::{is_first, is_late, key_in};
pub use udp::take_udp;
pub use untracked::{is_full, take_untracked, timeout_of};
pub use uses::use_segment;
pub use workspace::Workspace;
