//! What is known from event to event, whatever its sessions keep, and what a frame changes of it: what the gate and the auditor share.
#![tactic(auto)]

mod engine;
mod state;
mod stepped;
mod stream;
mod taken;

pub use engine::Engine;
pub use state::State;
pub use stepped::Stepped;
pub use taken::Taken;
