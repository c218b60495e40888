//! Captures in the pcap format, read record by record from a desk's slot, and written to one.
#![tactic(auto)]

mod fault;
mod form;
mod head;
mod laws;
mod reader;
mod record;
mod write;

pub use fault::{CaptureFault, ReadStop};
pub use form::{Form, Order, Precision};
pub use laws::reads_what_is_spelled;
pub use reader::{CaptureReader, Packet};
pub use write::{write_head, write_packet};
