// What the addresses in units are called.
ghost use Rattle.std.specs.Prelude.{◌≡◌, not, nat_lt, true, List, Option, map, length, IfOk};
ghost use Rattle.gate_base.specs.Prelude.{other};
ghost use Rattle.gate_base.specs.declared.address.Addr.{Addr};
ghost use Rattle.binding_table.specs.Prelude.{free, Use, AreUsesOf, needed};
ghost use Rattle.dialogue.specs.Prelude.{Entry};
ghost use Rattle.dns_plans.specs.Plans.{all_addresses, called_after, beside, AreBound};

use crate::plan::Endpoints;
use binding_table::{SeenAddresses, Table};
use dns_stream::Entry;
use gate_base::{Addr, OutOfMemory};
use std::alloc::Global;

/// The addresses of the header, and then those that are named.
fn all_addresses(
    alloc: Global,
    endpoints: &Endpoints,
    named: &[Addr],
) -> Result<Vec<Addr>, OutOfMemory>
    ensures { IfOk result
        (λ addresses. addresses.items ≡ all_addresses endpoints.now named.now) }
{
    let mut addresses = Vec::with_capacity(alloc, named.len() + 2)?;
    addresses.push(endpoints.source)?;
    addresses.push(endpoints.destination)?;
    addresses.extend_from_slice(named)?;
    Ok(addresses)
}

/// Addresses beside their images.
fn beside(alloc: Global, named: &[Addr], images: &[Option<Addr>]) -> Result<Vec<Entry>, OutOfMemory>
    requires { length images.now ≡ length named.now }
    ensures named { IfOk result
        (λ entries. map (λ (entry : Entry). entry.0) entries.items ≡ named.now) }
    ensures images { (called : Addr → Option Addr)
        → images.now ≡ map called named.now
        → IfOk result (λ entries. entries.items ≡ beside called named.now) }
{
    let mut entries = Vec::with_capacity(alloc, named.len())?;
    for (place, address) in named.iter().enumerate() {
        entries.push((*address, images[place]))?;
    }
    Ok(entries)
}

/// Named addresses beside what they are called once they are used behind those of the header, where the other realm's pool has room for
/// all of these, and whether it has.
pub fn called_beside(
    alloc: Global,
    table: &Table,
    seen_addresses: &mut SeenAddresses,
    endpoints: &Endpoints,
    named: &[Addr],
) -> Result<(Vec<Entry>, bool), OutOfMemory>
    requires bound { AreBound table.now endpoints.now.side
        (all_addresses endpoints.now named.now) }
    ensures room { IfOk result (λ called. called.1
        ≡ not (nat_lt (free table.now (other endpoints.now.side)) (needed table.now
        endpoints.now.side (all_addresses endpoints.now named.now)))) }
    ensures named { IfOk result
        (λ called. map (λ (entry : Entry). entry.0) called.0.items ≡ named.now) }
    ensures images { (uses : List Use)
        → AreUsesOf endpoints.now.side (all_addresses endpoints.now named.now) uses
        → IfOk result (λ called. called.1 ≡ true
        → called.0.items
        ≡ beside (called_after table.now uses endpoints.now.side) named.now) }
{
    let addresses = all_addresses(alloc, endpoints, named)?;
    let mut images = vec![in alloc; None; addresses.len()]?;
    let room = table.plan(endpoints.side, &addresses, &mut images, seen_addresses);
    Ok((beside(alloc, named, &images[2..])?, room))
}
