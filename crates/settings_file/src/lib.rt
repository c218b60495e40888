//! The settings of a gateway, read from a TOML document.
#![tactic(auto)]

mod cross;
mod document;
mod fault;
mod given;
mod key;
mod laws;
mod prefixes;
mod texts;
mod values;

pub use document::{LONGEST_SETTINGS, read_settings};
pub use fault::{FaultText, ReadSettings, SettingsFault};
pub use key::{Key, KeyText};
pub use laws::accepted_settings;
