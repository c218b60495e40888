// What becomes of a datagram.
ghost use Rattle.std.specs.Prelude.{◌≡◌};
ghost use Rattle.event_state.specs.Inside.Given.{taken_whole, result_whole};

use gate_base::OutOfMemory;
use verdicts::Refusal;

/// What becomes of a datagram.
#[derive(Drop)]
pub enum Taken<P> {
    /// It is refused.
    Refused(Refusal),
    /// It passes, and goes out whole.
    Whole,
    /// Its session hands this out.
    Cut(P),
}

/// It is refused, or passes and goes out whole.
pub fn whole<P>(refusal: Option<Refusal>) -> Taken<P>
    ensures { result ≡ taken_whole refusal }
{
    match refusal {
        Some(refusal) => Taken::Refused(refusal),
        None => Taken::Whole,
    }
}

/// The same where memory may have run out.
pub fn whole_of<P>(taken: Result<Option<Refusal>, OutOfMemory>) -> Result<Taken<P>, OutOfMemory>
    ensures { result ≡ result_whole taken }
{
    match taken {
        Ok(refusal) => Ok(whole(refusal)),
        Err(error) => Err(error),
    }
}
