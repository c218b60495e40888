// The settings of octets.
ghost use Rattle.std.specs.Prelude.{◌≡◌, ◌<◌, ◌^◌, length, IfOk, ok_or};
ghost use Rattle.toml.specs.View.{table_view};
ghost use Rattle.settings_file.specs.Firsts.{ReturnsFound};
ghost use Rattle.settings_file.specs.Inside.Firsts.{ReturnsFoundBy};
ghost use Rattle.settings_file.specs.Document.{document_of, keys_of};
ghost use Rattle.settings_file.specs.Accepting.{settings_of};
ghost use Rattle.gate_settings.specs.Prelude.{HasForms, IsSound};
ghost use Rattle.settings_file.specs.declared.fault.SettingsFault.TheVariants.{NotToml};

use crate::cross::first_fault;
use crate::fault::{ReadSettings, SettingsFault};
use crate::given::{Given, all_keys};
use gate_settings::Settings;
use std::alloc::Global;
use toml::Table;

/// The most octets that a settings document may have.
pub const LONGEST_SETTINGS: usize = 1_048_576;

fn read_document(alloc: Global, octets: &[u8]) -> Result<Table, ReadSettings>
    ensures { ReturnsFoundBy table_view result
        (ok_or (document_of octets.now) NotToml) }
{
    match toml::table_from_slice(alloc, octets) {
        Ok(table) => Ok(table),
        Err(error) => {
            if error.is_memory() {
                Err(ReadSettings::OutOfMemory)
            } else {
                Err(ReadSettings::Fault(SettingsFault::NotToml))
            }
        }
    }
}

#[tactic(auto, unfolding(crate::specs::Document::keys_of))]
fn read_keys(alloc: Global, octets: &[u8]) -> Result<Given, ReadSettings>
    ensures value { ReturnsFound result (keys_of octets.now) }
    ensures few { IfOk result (λ given. length given.settings.statics < 2 ^ 32) }
{
    if octets.len() > LONGEST_SETTINGS {
        return Err(ReadSettings::Fault(SettingsFault::TooLong));
    }
    let document = read_document(alloc, octets)?;
    all_keys(alloc, &document)
}

/// The settings that a TOML document holds.
///
/// The error is the document's first fault, in the order in which the faults and the keys are listed, or that memory
/// ran out. Settings that were read fit one another, and their blocks, addresses and rules have their forms.
#[tactic(auto, unfolding(crate::specs::Accepting::settings_of))]
pub fn read_settings(alloc: Global, octets: &[u8]) -> Result<Settings, ReadSettings>
    ensures value { ReturnsFound result (settings_of octets.now) }
    ensures sound { IfOk result IsSound }
    ensures forms { IfOk result HasForms }
{
    let given = read_keys(alloc, octets)?;
    let fault = first_fault(alloc, &given)?;
    match fault {
        Some(fault) => Err(ReadSettings::Fault(fault)),
        None => Ok(given.settings),
    }
}
