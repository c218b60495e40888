// Why units have no plan.
ghost use Rattle.std.specs.Prelude.{◌≡◌};
ghost use Rattle.dns_plans.specs.declared.stop.PlanStop.TheVariants as stops;

use gate_base::OutOfMemory;
use verdicts::Refusal;

/// Why units have no plan.
#[derive(Clone, Copy, Debug, PartialEq, Eq)]
pub enum PlanStop {
    /// The segment that completes them is refused.
    Refused(Refusal),
    /// Memory ran out.
    OutOfMemory,
}

impl From<OutOfMemory> for PlanStop {
    ghost from_gives = { λ _ stop. stop ≡ stops.OutOfMemory };

    fn from(_error: OutOfMemory) -> PlanStop {
        PlanStop::OutOfMemory
    }
}
