// The values of a TOML document, by their kinds.
ghost use Rattle.std.specs.Prelude.{◌≡◌, option_map, ok_or};
ghost use Rattle.toml.specs.Data.{get_member};
ghost use Rattle.toml.specs.View.{view, array_view, table_view};
ghost use Rattle.settings_file.specs.Keys.{name_of};
ghost use Rattle.settings_file.specs.Firsts.{ReturnsFound};
ghost use Rattle.settings_file.specs.Inside.Firsts.{Sees};
ghost use Rattle.settings_file.specs.Document as document;
ghost use Rattle.settings_file.specs.declared.fault.SettingsFault.TheVariants.{Missing};

use crate::fault::{ReadSettings, SettingsFault};
use crate::key::Key;
use crate::prefixes::read_prefix;
use crate::texts;
use gate_base::{Addr, Arcs, Link, Side};
use gate_settings::{Block, ReportForm};
use std::alloc::Global;
use toml::value::Array;
use toml::{Table, Value};

fn at<'a>(table: &'a Table, name: &str) -> Option<&'a Value>
    ensures { option_map (λ v. view v.now) result
        ≡ get_member name.now (table_view table.now) }
{
    table.get(name)
}

/// The value at a key.
pub fn find(table: &Table, key: Key) -> Option<&Value>
    ensures { option_map (λ v. view v.now) result
        ≡ get_member (name_of key) (table_view table.now) }
{
    at(table, key.name())
}

/// The value at a key that has to be there.
pub fn need(table: &Table, key: Key) -> Result<&Value, SettingsFault>
    ensures { Sees (λ v. view v.now) result
        (ok_or (get_member (name_of key) (table_view table.now)) (Missing key)) }
{
    match find(table, key) {
        Some(value) => Ok(value),
        None => Err(SettingsFault::Missing(key)),
    }
}

/// A text.
pub fn text(key: Key, value: &Value) -> Result<&str, SettingsFault>
    ensures { Sees (λ s. s.now) result (document.text key (view value.now)) }
{
    match value.as_str() {
        Some(text) => Ok(text),
        None => Err(SettingsFault::Kind(key)),
    }
}

/// A table.
pub fn table(key: Key, value: &Value) -> Result<&Table, SettingsFault>
    ensures { Sees (λ t. table_view t.now) result
        (document.table key (view value.now)) }
{
    match value.as_table() {
        Some(table) => Ok(table),
        None => Err(SettingsFault::Kind(key)),
    }
}

/// An array.
pub fn array(key: Key, value: &Value) -> Result<&Array, SettingsFault>
    ensures { Sees (λ a. array_view a.now) result
        (document.array key (view value.now)) }
{
    match value.as_array() {
        Some(array) => Ok(array),
        None => Err(SettingsFault::Kind(key)),
    }
}

/// The form of a report.
#[tactic(auto, unfolding(crate::specs::Document::report))]
pub fn report(key: Key, value: &Value) -> Result<ReportForm, SettingsFault>
    ensures { result ≡ document.report key (view value.now) }
{
    match texts::read_report(text(key, value)?) {
        Some(report) => Ok(report),
        None => Err(SettingsFault::Kind(key)),
    }
}

/// Whether fragments are joined.
#[tactic(auto, unfolding(crate::specs::Document::join))]
pub fn join(key: Key, value: &Value) -> Result<bool, SettingsFault>
    ensures { result ≡ document.join key (view value.now) }
{
    match texts::read_join(text(key, value)?) {
        Some(join) => Ok(join),
        None => Err(SettingsFault::Kind(key)),
    }
}

/// What the frames of a realm are.
#[tactic(auto, unfolding(crate::specs::Document::link))]
pub fn link(key: Key, value: &Value) -> Result<Link, SettingsFault>
    ensures { result ≡ document.link key (view value.now) }
{
    match texts::read_link(text(key, value)?) {
        Some(link) => Ok(link),
        None => Err(SettingsFault::Kind(key)),
    }
}

/// A realm.
#[tactic(auto, unfolding(crate::specs::Document::side))]
pub fn side(key: Key, value: &Value) -> Result<Side, SettingsFault>
    ensures { result ≡ document.side key (view value.now) }
{
    match texts::read_side(text(key, value)?) {
        Some(side) => Ok(side),
        None => Err(SettingsFault::Kind(key)),
    }
}

/// The six octets of a MAC address.
#[tactic(auto, unfolding(crate::specs::Document::mac))]
pub fn mac(key: Key, value: &Value) -> Result<[u8; 6], SettingsFault>
    ensures { result ≡ document.mac key (view value.now) }
{
    match texts::read_mac(text(key, value)?.as_bytes()) {
        Some(octets) => Ok(octets),
        None => Err(SettingsFault::Kind(key)),
    }
}

/// The address of a host.
#[tactic(auto, unfolding(crate::specs::Document::address))]
pub fn address(key: Key, value: &Value) -> Result<Addr, SettingsFault>
    ensures { result ≡ document.address key (view value.now) }
{
    match texts::read_address(text(key, value)?) {
        Some(address) => Ok(address),
        None => Err(SettingsFault::BadAddress(key)),
    }
}

/// A text that is a block.
#[tactic(auto, unfolding(crate::specs::Document::block))]
pub fn block(key: Key, value: &Value) -> Result<Block, SettingsFault>
    ensures { result ≡ document.block key (view value.now) }
{
    match texts::read_block(text(key, value)?) {
        Some(block) => Ok(block),
        None => Err(SettingsFault::BadAddress(key)),
    }
}

/// The arcs with which object identifiers begin.
#[tactic(auto, unfolding(crate::specs::Document::prefix))]
pub fn prefix(alloc: Global, key: Key, value: &Value) -> Result<Arcs, ReadSettings>
    ensures { ReturnsFound result (document.prefix key (view value.now)) }
{
    match read_prefix(alloc, text(key, value)?.as_bytes())? {
        Some(arcs) => Ok(arcs),
        None => Err(ReadSettings::Fault(SettingsFault::Kind(key))),
    }
}

/// How many arcs are skipped: a whole number from 0 to 127.
#[tactic(auto, unfolding(crate::specs::Document::skip))]
pub fn skip(key: Key, value: &Value) -> Result<u32, SettingsFault>
    ensures { result ≡ document.skip key (view value.now) }
{
    match value.as_integer().and_then(few) {
        Some(skip) => Ok(skip),
        None => Err(SettingsFault::Kind(key)),
    }
}

fn few(number: i64) -> Option<u32>
    ensures { result ≡ document.few number }
{
    if 0 <= number && number <= 127 {
        Some(number as u32)
    } else {
        None
    }
}
