// The keys of a settings document, in the order of testing.
ghost use Rattle.std.specs.Prelude.{◌≡◌, ◌<◌, ◌^◌, [], None, false, length, IfOk};
ghost use Rattle.toml.specs.View.{view, items_view, table_view};
ghost use Rattle.gate_settings.specs.declared.settings.ReportForm.TheVariants.{Text};
ghost use Rattle.settings_file.specs.Firsts.{ReturnsFound};
ghost use Rattle.settings_file.specs.Inside.Firsts.{Sees, ReturnsFoundBy};
ghost use Rattle.settings_file.specs.Document as document;

use crate::fault::{ReadSettings, SettingsFault};
use crate::key::Key;
use crate::values::{self, find, need};
use gate_base::{Addr, Link, OidRule, Side};
use gate_settings::{Block, Blocks, Fixed, OidRules, ReportForm, Settings, SideSettings, Statics};
use std::alloc::Global;
use toml::{Table, Value};

/// What the table of a realm sets.
#[derive(Clone, Copy)]
pub struct GivenSide {
    pub settings: SideSettings,
    /// The link is Ethernet, and one of its two addresses isn't given.
    pub lacks_mac: bool,
}

/// What a document sets, before it is known that its settings fit one another.
#[derive(Drop)]
pub struct Given {
    pub settings: Settings,
    pub left_lacks_mac: bool,
    pub right_lacks_mac: bool,
}

fn needed_address(table: &Table, key: Key) -> Result<Addr, SettingsFault>
    ensures { result ≡ document.needed document.address key (table_view table.now) }
{
    values::address(key, need(table, key)?)
}

fn needed_link(table: &Table, key: Key) -> Result<Link, SettingsFault>
    ensures { result ≡ document.needed document.link key (table_view table.now) }
{
    values::link(key, need(table, key)?)
}

fn needed_side(table: &Table, key: Key) -> Result<Side, SettingsFault>
    ensures { result ≡ document.needed document.side key (table_view table.now) }
{
    values::side(key, need(table, key)?)
}

fn needed_table(table: &Table, key: Key) -> Result<&Table, SettingsFault>
    ensures { Sees (λ t. table_view t.now) result
        (document.needed document.table key (table_view table.now)) }
{
    values::table(key, need(table, key)?)
}

fn optional_mac(table: &Table, key: Key) -> Result<Option<[u8; 6]>, SettingsFault>
    ensures { result
        ≡ document.optional document.given_mac None key (table_view table.now) }
{
    match find(table, key) {
        Some(value) => Ok(Some(values::mac(key, value)?)),
        None => Ok(None),
    }
}

/// The keys of a realm's table.
#[tactic(auto, unfolding(crate::specs::Document::side_keys))]
fn side_keys(side: Side, table: &Table) -> Result<GivenSide, SettingsFault>
    ensures { result ≡ document.side_keys side (table_view table.now) }
{
    let first = needed_address(table, Key::PoolFirst(side))?;
    let last = needed_address(table, Key::PoolLast(side))?;
    let link = needed_link(table, Key::Link(side))?;
    let gateway_mac = optional_mac(table, Key::GatewayMac(side))?;
    let next_mac = optional_mac(table, Key::NextMac(side))?;
    let lacks_mac = match link {
        Link::Ethernet => gateway_mac.is_none() || next_mac.is_none(),
        Link::Raw => false,
    };
    Ok(GivenSide {
        settings: SideSettings {
            first,
            last,
            link,
            gateway_mac: gateway_mac.unwrap_or([0; 6]),
            next_mac: next_mac.unwrap_or([0; 6]),
        },
        lacks_mac,
    })
}

#[tactic(auto, unfolding(crate::specs::Document::side_table))]
fn side_table(side: Side, top: &Table) -> Result<GivenSide, SettingsFault>
    ensures { result ≡ document.side_table side (table_view top.now) }
{
    side_keys(side, needed_table(top, Key::Table(side))?)
}

/// The keys of an entry of `static`.
#[tactic(auto, unfolding(crate::specs::Document::static_keys))]
fn static_keys(number: u32, table: &Table) -> Result<Fixed, SettingsFault>
    ensures { result ≡ document.static_keys number (table_view table.now) }
{
    let side = needed_side(table, Key::StaticSide(number))?;
    let host = needed_address(table, Key::StaticHost(number))?;
    let alias = needed_address(table, Key::StaticAlias(number))?;
    Ok(Fixed { side, host, alias })
}

#[tactic(auto, unfolding(crate::specs::Document::static_entry))]
fn static_entry(number: u32, value: &Value) -> Result<Fixed, SettingsFault>
    ensures { result ≡ document.static_entry number (view value.now) }
{
    static_keys(number, values::table(Key::Statics, value)?)
}

fn are_texts(values: &[Value]) -> bool
    ensures { result ≡ document.are_all document.is_text (items_view values.now) }
{
    for value in values {
        if !value.is_str() {
            return false;
        }
    }
    true
}

fn are_tables(values: &[Value]) -> bool
    ensures { result ≡ document.are_all document.is_table (items_view values.now) }
{
    for value in values {
        if !value.is_table() {
            return false;
        }
    }
    true
}

fn blocks_of(alloc: Global, values: &[Value]) -> Result<Vec<Block>, ReadSettings>
    ensures { ReturnsFoundBy (λ v. v.items) result (document.each
        (λ n value. document.block Key.Same value) 1 (items_view values.now)) }
{
    let mut blocks = Vec::new(alloc);
    for value in values {
        let block = values::block(Key::Same, value)?;
        blocks.push(block)?;
    }
    Ok(blocks)
}

fn statics_of(alloc: Global, values: &[Value]) -> Result<Vec<Fixed>, ReadSettings>
    requires { length values.now < 2 ^ 32 }
    ensures value { ReturnsFoundBy (λ v. v.items) result
        (document.each document.static_entry 1 (items_view values.now)) }
    ensures few { IfOk result (λ v. length v.items < 2 ^ 32) }
{
    let mut statics = Vec::new(alloc);
    for (index, value) in values.iter().enumerate() {
        let fixed = static_entry(index as u32 + 1, value)?;
        statics.push(fixed)?;
    }
    Ok(statics)
}

#[tactic(auto, unfolding(crate::specs::Document::blocks))]
fn blocks(alloc: Global, key: Key, value: &Value) -> Result<Blocks, ReadSettings>
    ensures { ReturnsFound result (document.blocks key (view value.now)) }
{
    let values = values::array(key, value)?;
    if !are_texts(values) {
        return Err(ReadSettings::Fault(SettingsFault::Kind(key)));
    }
    Ok(Blocks::of(blocks_of(alloc, values)?))
}

#[tactic(auto, unfolding(crate::specs::Document::statics))]
fn statics(alloc: Global, key: Key, value: &Value) -> Result<Statics, ReadSettings>
    ensures value { ReturnsFound result (document.statics key (view value.now)) }
    ensures few { IfOk result (λ v. length v < 2 ^ 32) }
{
    let values = values::array(key, value)?;
    if !are_tables(values) {
        return Err(ReadSettings::Fault(SettingsFault::Kind(key)));
    }
    // The memory of no machine holds so many values.
    if values.len() > u32::MAX as usize {
        return Err(ReadSettings::OutOfMemory);
    }
    Ok(Statics::of(statics_of(alloc, values)?))
}

fn report_key(top: &Table) -> Result<ReportForm, SettingsFault>
    ensures { result
        ≡ document.optional document.report Text Key.Report (table_view top.now) }
{
    match find(top, Key::Report) {
        Some(value) => values::report(Key::Report, value),
        None => Ok(ReportForm::Text),
    }
}

fn fragments_key(top: &Table) -> Result<bool, SettingsFault>
    ensures { result
        ≡ document.optional document.join false Key.Fragments (table_view top.now) }
{
    match find(top, Key::Fragments) {
        Some(value) => values::join(Key::Fragments, value),
        None => Ok(false),
    }
}

fn same_key(alloc: Global, top: &Table) -> Result<Blocks, ReadSettings>
    ensures { ReturnsFound result
        (document.optional document.blocks [] Key.Same (table_view top.now)) }
{
    match find(top, Key::Same) {
        Some(value) => blocks(alloc, Key::Same, value),
        None => Ok(Blocks::of(Vec::new(alloc))),
    }
}

fn static_key(alloc: Global, top: &Table) -> Result<Statics, ReadSettings>
    ensures value { ReturnsFound result
        (document.optional document.statics [] Key.Statics (table_view top.now)) }
    ensures few { IfOk result (λ v. length v < 2 ^ 32) }
{
    match find(top, Key::Statics) {
        Some(value) => statics(alloc, Key::Statics, value),
        None => Ok(Statics::of(Vec::new(alloc))),
    }
}

/// The keys of an entry of `oid`.
#[tactic(auto, unfolding(crate::specs::Document::oid_keys))]
fn oid_keys(alloc: Global, number: u32, table: &Table) -> Result<OidRule, ReadSettings>
    ensures { ReturnsFound result (document.oid_keys number (table_view table.now)) }
{
    let key = Key::OidPrefix(number);
    let prefix = values::prefix(alloc, key, need(table, key)?)?;
    let key = Key::OidSkip(number);
    let skip = values::skip(key, need(table, key)?)?;
    Ok(OidRule { prefix, skip })
}

#[tactic(auto, unfolding(crate::specs::Document::oid_entry))]
fn oid_entry(alloc: Global, number: u32, value: &Value) -> Result<OidRule, ReadSettings>
    ensures { ReturnsFound result (document.oid_entry number (view value.now)) }
{
    oid_keys(alloc, number, values::table(Key::Oids, value)?)
}

fn oids_of(alloc: Global, values: &[Value]) -> Result<Vec<OidRule>, ReadSettings>
    requires { length values.now < 2 ^ 32 }
    ensures { ReturnsFoundBy (λ v. v.items) result
        (document.each document.oid_entry 1 (items_view values.now)) }
{
    let mut oids = Vec::new(alloc);
    for (index, value) in values.iter().enumerate() {
        let rule = oid_entry(alloc, index as u32 + 1, value)?;
        oids.push(rule)?;
    }
    Ok(oids)
}

#[tactic(auto, unfolding(crate::specs::Document::oids))]
fn oids(alloc: Global, key: Key, value: &Value) -> Result<OidRules, ReadSettings>
    ensures { ReturnsFound result (document.oids key (view value.now)) }
{
    let values = values::array(key, value)?;
    if !are_tables(values) {
        return Err(ReadSettings::Fault(SettingsFault::Kind(key)));
    }
    // The memory of no machine holds so many values.
    if values.len() > u32::MAX as usize {
        return Err(ReadSettings::OutOfMemory);
    }
    Ok(OidRules::of(oids_of(alloc, values)?))
}

fn oid_key(alloc: Global, top: &Table) -> Result<OidRules, ReadSettings>
    ensures { ReturnsFound result
        (document.optional document.oids [] Key.Oids (table_view top.now)) }
{
    match find(top, Key::Oids) {
        Some(value) => oids(alloc, Key::Oids, value),
        None => Ok(OidRules::of(Vec::new(alloc))),
    }
}

/// All keys of a document.
#[tactic(auto, unfolding(crate::specs::Document::all_keys))]
pub fn all_keys(alloc: Global, top: &Table) -> Result<Given, ReadSettings>
    ensures value { ReturnsFound result (document.all_keys (table_view top.now)) }
    ensures few { IfOk result (λ given. length given.settings.statics < 2 ^ 32) }
{
    let report = report_key(top)?;
    let join = fragments_key(top)?;
    let same = same_key(alloc, top)?;
    let left = side_table(Side::Left, top)?;
    let right = side_table(Side::Right, top)?;
    let statics = static_key(alloc, top)?;
    let oids = oid_key(alloc, top)?;
    Ok(Given {
        settings: Settings {
            report,
            join,
            same,
            left: left.settings,
            right: right.settings,
            statics,
            oids,
        },
        left_lacks_mac: left.lacks_mac,
        right_lacks_mac: right.lacks_mac,
    })
}
