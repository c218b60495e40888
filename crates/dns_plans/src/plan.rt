// What units do.
ghost use Rattle.std.specs.Prelude.{◌≡◌, ◌≢◌, ◌≤◌, ◌∷◌, [], None, Err, length, IfOk, IfErr};
ghost use Rattle.verdicts.specs.Prelude.{first_that_holds};
ghost use Rattle.dns_plans.specs.Inside.Steps.{none_tests};
ghost use Rattle.dns_plans.specs.Plans.{whole_units, AreBound, IsListBound, TellsFirst};
ghost use Rattle.dns_plans.specs.Planned.{IsPlan, IsStopped};

use crate::called::called_beside;
use crate::entered::{has_new_unbound, new_entries};
use crate::growth::unit_images;
use crate::named::{ReadUnits, read_units};
use crate::sender::Sender;
use crate::session::Session;
use crate::stop::PlanStop;
use binding_table::{SeenAddresses, Table};
use dialogue::UnitImage;
use dns_stream::{Entry, UnitStop, unit_end};
use gate_base::{Addr, Side};
use std::alloc::Global;
use verdicts::Refusal;

/// The realm that sends a segment, and both addresses of its header.
#[derive(Clone, Copy)]
pub struct Endpoints {
    pub side: Side,
    pub source: Addr,
    pub destination: Addr,
}

/// What units do: the addresses to rename in them, in their order and as often as they stand there. Beside each is what it is
/// called once all of them are used, and None where it is kept. The images are those of the units by the list of their sender once the
/// entries are entered.
#[derive(Drop)]
pub struct UnitPlan {
    pub named: Vec<Addr>,
    pub entries: Vec<Entry>,
    pub images: Vec<UnitImage>,
}

impl UnitPlan {
    /// What no units do.
    pub fn new(alloc: Global) -> UnitPlan
        ensures named { result.named.items ≡ [] }
        ensures entries { result.entries.items ≡ [] }
        ensures images { result.images.items ≡ [] }
    {
        UnitPlan {
            named: Vec::new(alloc),
            entries: Vec::new(alloc),
            images: Vec::new(alloc),
        }
    }
}

/// What the units of a segment bring to its session: the addresses in them, each beside what it is called, and the images of the units
/// by the list with these entries.
#[derive(Drop)]
pub struct Completed<'a> {
    pub entries: &'a [Entry],
    pub images: Vec<UnitImage>,
}

/// What the whole units in octets do that follow a unit's end, by a table and the list of their sender, or the first reason to refuse
/// the segment that completes them. Memory is taken only where there is a whole unit.
#[inline(never)]
pub fn plan_units<S: Session>(
    alloc: Global,
    table: &Table,
    seen_addresses: &mut SeenAddresses,
    endpoints: &Endpoints,
    sender: &Sender<'_, S>,
    octets: &[u8],
) -> Result<UnitPlan, PlanStop>
    requires header { AreBound table.now endpoints.now.side
        (endpoints.now.source ∷ endpoints.now.destination ∷ []) }
    requires listed { IsListBound table.now endpoints.now.side
        (S.rules.listed sender.now.host sender.now.session.now) }
    ensures planned { IfOk result (IsPlan table.now endpoints.now
        (S.rules.listed sender.now.host sender.now.session.now) octets.now) }
    ensures stopped { IfErr result (IsStopped table.now endpoints.now
        (S.rules.listed sender.now.host sender.now.session.now) octets.now) }
    ensures memory { result ≡ Err PlanStop.OutOfMemory
        → 1 ≤ length (whole_units octets.now) }
{
    if unit_end(octets).is_none() {
        return plan_none(alloc, table, seen_addresses, endpoints, sender);
    }
    plan_some(alloc, table, seen_addresses, endpoints, sender, octets)
}

/// What no units do.
fn plan_none<S: Session>(
    alloc: Global,
    table: &Table,
    seen_addresses: &mut SeenAddresses,
    endpoints: &Endpoints,
    sender: &Sender<'_, S>,
) -> Result<UnitPlan, PlanStop>
    requires header { AreBound table.now endpoints.now.side
        (endpoints.now.source ∷ endpoints.now.destination ∷ []) }
    ensures refused { IfErr result (TellsFirst
        (first_that_holds (none_tests table.now endpoints.now
        (S.rules.listed sender.now.host sender.now.session.now)))) }
    ensures passes { IfOk result (λ _. first_that_holds
        (none_tests table.now endpoints.now
        (S.rules.listed sender.now.host sender.now.session.now)) ≡ None) }
    ensures named { IfOk result (λ plan. plan.named.items ≡ []) }
    ensures entries { IfOk result (λ plan. plan.entries.items ≡ []) }
    ensures images { IfOk result (λ plan. plan.images.items ≡ []) }
    ensures memory { result ≢ Err PlanStop.OutOfMemory }
{
    // The proof needs that the list has at most `MOST_ENTRIES`.
    let _few = sender.listed();
    let header = [endpoints.source, endpoints.destination];
    if !table.plan(endpoints.side, &header, &mut [None, None], seen_addresses) {
        return Err(PlanStop::Refused(Refusal::PoolEmpty));
    }
    Ok(UnitPlan::new(alloc))
}

/// What units do.
fn plan_some<S: Session>(
    alloc: Global,
    table: &Table,
    seen_addresses: &mut SeenAddresses,
    endpoints: &Endpoints,
    sender: &Sender<'_, S>,
    octets: &[u8],
) -> Result<UnitPlan, PlanStop>
    requires header { AreBound table.now endpoints.now.side
        (endpoints.now.source ∷ endpoints.now.destination ∷ []) }
    requires listed { IsListBound table.now endpoints.now.side
        (S.rules.listed sender.now.host sender.now.session.now) }
    ensures planned { IfOk result (IsPlan table.now endpoints.now
        (S.rules.listed sender.now.host sender.now.session.now) octets.now) }
    ensures stopped { IfErr result (IsStopped table.now endpoints.now
        (S.rules.listed sender.now.host sender.now.session.now) octets.now) }
{
    let ReadUnits { units, named } = match read_units(alloc, octets) {
        Ok(read) => read,
        Err(UnitStop::BadUnit) => return Err(PlanStop::Refused(Refusal::BadUnit)),
        Err(UnitStop::OutOfMemory) => return Err(PlanStop::OutOfMemory),
    };
    if has_new_unbound(table, endpoints.side, sender, &named) {
        return Err(PlanStop::Refused(Refusal::UnitUnbound));
    }
    let (entries, room) = called_beside(alloc, table, seen_addresses, endpoints, &named)?;
    let Some(new) = new_entries(alloc, sender, &entries)? else {
        return Err(PlanStop::Refused(Refusal::RenamesFull));
    };
    if !room {
        return Err(PlanStop::Refused(Refusal::PoolEmpty));
    }
    let Some(images) = unit_images(alloc, sender, &new, units)? else {
        return Err(PlanStop::Refused(Refusal::UnitGrows));
    };
    Ok(UnitPlan {
        named,
        entries,
        images,
    })
}
