//! The settings of a gateway.
#![tactic(auto)]

mod same;
mod settings;

pub use same::SameRanges;
pub use settings::{Block, Blocks, Fixed, OidRules, ReportForm, Settings, SideSettings, Statics};
