// What the settings must be to one another.
ghost use Rattle.std.specs.Prelude.{◌≡◌, ◌<◌, ◌^◌, [], length, position, IfOk, IfSome};
ghost use Rattle.gate_settings.specs.Cross as cross;
ghost use Rattle.settings_file.specs.Accepting as accepting;
ghost use Rattle.settings_file.specs.Inside.Numbers as keys;

use crate::fault::SettingsFault;
use crate::given::Given;
use gate_base::{Addr, LARGEST_POOL, OutOfMemory, Side};
use gate_settings::{Block, Fixed, SameRanges, Settings, SideSettings};
use std::alloc::Global;
use std::collections::BTreeSet;

fn is_bad_pool(pool: &SideSettings) -> bool
    ensures { result ≡ cross.is_bad_pool pool.now }
{
    pool.last.0 < pool.first.0 || pool.last.0 - pool.first.0 >= LARGEST_POOL
}

fn meets_pool(pool: &SideSettings, block: &Block) -> bool
    ensures { result ≡ cross.meets_pool pool.now block.now }
{
    block.base.0 <= pool.last.0 && u64::from(pool.first.0) <= block.end()
}

fn same_meets_pool(pool: &SideSettings, same: &[Block]) -> bool
    ensures { result ≡ cross.meets_same same.now pool.now }
{
    same.iter().any(|block| meets_pool(pool, block))
}

fn host_is_taken(settings: &Settings, same: &SameRanges, fixed: &Fixed) -> bool
    ensures { result ≡ keys.host_is_taken settings.now same.now fixed.now }
{
    settings.side(fixed.side).contains(fixed.host) || same.contains(fixed.host)
}

#[tactic(auto, unfolding(gate_settings::specs::Cross::alias_is_outside))]
fn alias_is_outside(settings: &Settings, fixed: &Fixed) -> bool
    ensures { result ≡ cross.alias_is_outside settings.now fixed.now }
{
    !settings.side(fixed.side.other()).contains(fixed.alias)
}

// The number of an address of a realm: no two have the same.
fn number_of(side: Side, address: Addr) -> u64
    ensures { result ≡ keys.number_of side address.0 }
{
    let even = 2 * u64::from(address.0);
    match side {
        Side::Left => even,
        Side::Right => even + 1,
    }
}

#[tactic(auto, unfolding(crate::specs::Accepting::pool_size))]
fn pool_size(settings: &Settings) -> Option<SettingsFault>
    ensures { result ≡ accepting.pool_size settings.now }
{
    if is_bad_pool(&settings.left) {
        Some(SettingsFault::PoolSize(Side::Left))
    } else if is_bad_pool(&settings.right) {
        Some(SettingsFault::PoolSize(Side::Right))
    } else {
        None
    }
}

#[tactic(auto, unfolding(crate::specs::Accepting::same_in_pool))]
fn same_in_pool(settings: &Settings) -> Option<SettingsFault>
    ensures { result ≡ accepting.same_in_pool settings.now }
{
    let same = settings.same.items();
    if same_meets_pool(&settings.left, same) {
        Some(SettingsFault::SameInPool(Side::Left))
    } else if same_meets_pool(&settings.right, same) {
        Some(SettingsFault::SameInPool(Side::Right))
    } else {
        None
    }
}

fn first_taken(settings: &Settings, same: &SameRanges, statics: &[Fixed]) -> Option<usize>
    ensures value { result
        ≡ position (keys.host_is_taken settings.now same.now) statics.now }
    ensures within { IfSome result (λ place. place < length statics.now) }
{
    statics
        .iter()
        .position(|fixed| host_is_taken(settings, same, fixed))
}

fn first_outside(settings: &Settings, statics: &[Fixed]) -> Option<usize>
    ensures value { result
        ≡ position (cross.alias_is_outside settings.now) statics.now }
    ensures within { IfSome result (λ place. place < length statics.now) }
{
    statics
        .iter()
        .position(|fixed| alias_is_outside(settings, fixed))
}

#[tactic(auto, unfolding(crate::specs::Accepting::host_in_pool))]
fn host_in_pool(alloc: Global, settings: &Settings) -> Result<Option<SettingsFault>, OutOfMemory>
    requires { length settings.now.statics < 2 ^ 32 }
    ensures { IfOk result (λ found. found ≡ accepting.host_in_pool settings.now) }
{
    let same = SameRanges::of(alloc, settings.same.items())?;
    match first_taken(settings, &same, settings.statics.items()) {
        Some(place) => Ok(Some(SettingsFault::HostInPool(place as u32 + 1))),
        None => Ok(None),
    }
}

#[tactic(auto, unfolding(crate::specs::Accepting::static_outside_pool))]
fn static_outside_pool(settings: &Settings) -> Option<SettingsFault>
    requires { length settings.now.statics < 2 ^ 32 }
    ensures { result ≡ accepting.static_outside_pool settings.now }
{
    match first_outside(settings, settings.statics.items()) {
        Some(place) => Some(SettingsFault::StaticOutsidePool(place as u32 + 1)),
        None => None,
    }
}

fn repeated(alloc: Global, statics: &[Fixed]) -> Result<Option<SettingsFault>, OutOfMemory>
    requires { length statics.now < 2 ^ 32 }
    ensures { IfOk result (λ found. found ≡ accepting.first_repeated [] statics.now) }
{
    let mut hosts = BTreeSet::new(alloc);
    let mut aliases = BTreeSet::new(alloc);
    for (index, fixed) in statics.iter().enumerate() {
        let new_host = hosts.insert(number_of(fixed.side, fixed.host))?;
        let new_alias = aliases.insert(number_of(fixed.side, fixed.alias))?;
        if !new_host || !new_alias {
            return Ok(Some(SettingsFault::StaticRepeated(index as u32 + 1)));
        }
    }
    Ok(None)
}

#[tactic(auto, unfolding(crate::specs::Accepting::static_repeated))]
fn static_repeated(alloc: Global, settings: &Settings) -> Result<Option<SettingsFault>, OutOfMemory>
    requires { length settings.now.statics < 2 ^ 32 }
    ensures { IfOk result (λ found. found ≡ accepting.static_repeated settings.now) }
{
    repeated(alloc, settings.statics.items())
}

#[tactic(auto, unfolding(crate::specs::Accepting::mac_missing))]
fn mac_missing(given: &Given) -> Option<SettingsFault>
    ensures { result ≡ accepting.mac_missing given.now }
{
    if given.left_lacks_mac {
        Some(SettingsFault::MacMissing(Side::Left))
    } else if given.right_lacks_mac {
        Some(SettingsFault::MacMissing(Side::Right))
    } else {
        None
    }
}

/// The first fault of settings that were given. The error is that there is too little memory.
#[tactic(auto, unfolding(crate::specs::Accepting::first_fault))]
pub fn first_fault(alloc: Global, given: &Given) -> Result<Option<SettingsFault>, OutOfMemory>
    requires { length given.now.settings.statics < 2 ^ 32 }
    ensures { IfOk result (λ found. found ≡ accepting.first_fault given.now) }
{
    let settings = &given.settings;
    let taken = host_in_pool(alloc, settings)?;
    let repeated = static_repeated(alloc, settings)?;
    Ok(
        pool_size(settings)
            .or(same_in_pool(settings))
            .or(taken)
            .or(static_outside_pool(settings))
            .or(repeated)
            .or(mac_missing(given)),
    )
}
