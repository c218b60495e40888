ghost use Rattle.std.specs.Prelude.{◌≡◌};

use crate::Refusal;

/// What becomes of a frame.
#[derive(Clone, Copy, Debug, PartialEq, Eq)]
pub enum Verdict {
    /// It goes on to the other realm.
    Pass,
    /// It goes nowhere, for this reason.
    Refused(Refusal),
    /// It carries a fragment, which is held until its datagram is complete.
    Held,
}

impl Verdict {
    ghost use Rattle.verdicts.specs.Refusal.{verdict_name};

    /// The verdict in a report: `pass`, `held`, or the refusal's name.
    pub fn name(&self) -> &'static str
        ensures { result.now ≡ verdict_name self.now }
    {
        match self {
            Verdict::Pass => "pass",
            Verdict::Refused(refusal) => refusal.name(),
            Verdict::Held => "held",
        }
    }
}
