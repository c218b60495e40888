// Units that are read, and the addresses in them.
ghost use Rattle.std.specs.Prelude.{◌≡◌, ◌++◌, ◌∷◌, [], true, false, map, Err, IfOk, OnOk};
ghost use Rattle.std.specs.List.{list_any};
ghost use Rattle.dns_stream.specs.declared.stop.UnitStop.TheVariants as stop;
ghost use Rattle.gate_model.specs.Prelude.{addresses_in, is_bad};
ghost use Rattle.dns_plans.specs.Plans.{whole_units, names_in};
ghost use Rattle.dns_plans.specs.Inside.Steps.{AreRead, IsReadAs, unit_of};

use dns_gateway::addresses_of;
use dns_messages::Message;
use dns_stream::{UnitStop, unit_end, unit_message};
use gate_base::{Addr, OutOfMemory};
use std::alloc::Global;

/// A unit, and the message that it holds.
#[derive(Drop)]
pub struct ReadUnit {
    pub unit: Vec<u8>,
    pub message: Message,
}

/// Units that are read, and the addresses to rename in them, in their order and as often as they stand there.
#[derive(Drop)]
pub struct ReadUnits {
    pub units: Vec<ReadUnit>,
    pub named: Vec<Addr>,
}

/// Adds a unit that holds this message, with these addresses.
fn push(
    alloc: Global,
    read: &mut ReadUnits,
    unit: &[u8],
    message: Message,
    addresses: &[Addr],
) -> Result<(), OutOfMemory>
    ensures units { OnOk result (map unit_of read.new.units.items
        ≡ map unit_of read.old.units.items ++ unit.now ∷ []) }
    ensures each { AreRead read.old.units.items
        → IsReadAs unit.now message
        → OnOk result (AreRead read.new.units.items) }
    ensures named { OnOk result
        (read.new.named.items ≡ read.old.named.items ++ addresses.now) }
{
    read.named.extend_from_slice(addresses)?;
    let unit = Vec::from_slice(alloc, unit)?;
    read.units.push(ReadUnit { unit, message })?;
    Ok(())
}

/// Reads a unit, and adds it with its addresses.
fn add_unit(alloc: Global, read: &mut ReadUnits, unit: &[u8]) -> Result<(), UnitStop>
    ensures units { OnOk result (map unit_of read.new.units.items
        ≡ map unit_of read.old.units.items ++ unit.now ∷ []) }
    ensures each { AreRead read.old.units.items
        → OnOk result (AreRead read.new.units.items) }
    ensures named { OnOk result
        (read.new.named.items ≡ read.old.named.items ++ addresses_in (unit.now ∷ [])) }
    ensures good { OnOk result (is_bad unit.now ≡ false) }
    ensures bad { result ≡ Err stop.BadUnit → is_bad unit.now ≡ true }
{
    let message = unit_message(alloc, unit)?;
    let addresses = addresses_of(alloc, &message)?;
    push(alloc, read, unit, message, &addresses)?;
    Ok(())
}

/// Reads the whole units of octets. `BadUnit` only where one of the units names more than 8,192 octets, or holds no message.
pub fn read_units(alloc: Global, octets: &[u8]) -> Result<ReadUnits, UnitStop>
    ensures units { IfOk result
        (λ read. map unit_of read.units.items ≡ whole_units octets.now) }
    ensures each { IfOk result (λ read. AreRead read.units.items) }
    ensures named { IfOk result (λ read. read.named.items ≡ names_in octets.now) }
    ensures good { IfOk result
        (λ _. list_any is_bad (whole_units octets.now) ≡ false) }
    ensures bad { result ≡ Err stop.BadUnit
        → list_any is_bad (whole_units octets.now) ≡ true }
{
    let mut read = ReadUnits {
        units: Vec::new(alloc),
        named: Vec::new(alloc),
    };
    let mut at = 0;
    while let Some(end) = unit_end(&octets[at..]) {
        add_unit(alloc, &mut read, &octets[at..at + end])?;
        at += end;
    }
    Ok(read)
}
