//! Domain names in DNS messages (RFC 1035): reading them, writing each as short as what was written before lets it be, and
//! the reverse names of addresses.
#![tactic(auto)]

mod ending;
mod known;
mod label_places;
mod laws;
mod memo;
mod met;
mod name;
mod piece;
mod reader;
mod reverse;
mod stop;
mod suffix;
mod targets;
mod walk;
mod writer;

pub use laws::{found_is_lowest, names_read_back, one_name};
pub use name::{Name, read_name};
pub use reader::NameReader;
pub use reverse::{address_of, reverse_of};
pub use stop::NameStop;
pub use writer::NameWriter;

/// The most octets of a message: what the length in front of one over TCP can say (RFC 1035, 4.2.2).
pub const LONGEST_MESSAGE: usize = 65_535;

/// A pointer leads to a place below this one (RFC 1035, 4.1.4).
pub const POINTED: usize = 16_384;
