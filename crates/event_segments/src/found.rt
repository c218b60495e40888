// What is found of a segment's connection (RFC 2694, RFC 7766).
ghost use Rattle.std.specs.Prelude.{◌≡◌, true, false, [], IfOk, IfErr};
ghost use Rattle.event_payloads.specs.Prelude.{is_empty};
ghost use Rattle.verdicts.specs.declared.refusal.Refusal.TheVariants as refusals;
ghost use Rattle.dns_plans.specs.declared.stop.PlanStop.TheVariants as stops;

use dns_plans::{PlanStop, UnitPlan};
use event_payloads::{Way, lacks_alias};
use std::alloc::Global;
use verdicts::Refusal;

/// What the units do that a segment completes, and how many entries the lists of its session have before it: the client's, and the
/// server's.
#[derive(Drop)]
pub struct SegmentPlan {
    pub units: UnitPlan,
    pub client: usize,
    pub server: usize,
}

/// What is found of a segment's connection.
#[derive(Drop)]
pub enum SegmentFate {
    /// It doesn't live.
    Absent,
    /// It has no session.
    Untracked,
    /// Its session takes the segment.
    Tracked(SegmentPlan),
    /// The segment is refused.
    Refused(Refusal),
    /// Memory ran out.
    Lost,
}

/// What no units do.
pub fn no_units(alloc: Global, way: &Way) -> Result<UnitPlan, PlanStop>
    ensures planned { IfOk result (λ plan. (is_empty way.now.of_source ≡ false)
        × ((plan.named.items ≡ [])
        × ((plan.entries.items ≡ []) × (plan.images.items ≡ [])))) }
    ensures stopped { IfErr result (λ stop. (is_empty way.now.of_source ≡ true)
        × (stop ≡ stops.Refused refusals.PoolEmpty)) }
{
    if lacks_alias(way) {
        return Err(PlanStop::Refused(Refusal::PoolEmpty));
    }
    Ok(UnitPlan::new(alloc))
}
