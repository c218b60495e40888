//! A frame by itself: the datagram in it, and the reasons to refuse it that ask for nothing that is known.
#![tactic(auto)]

mod content;
mod judged;

pub use content::Content;
pub use judged::{Judged, judge};
