// What stands before the gate: fragments are joined, where the settings want it.
ghost use Rattle.std.specs.Prelude.{◌≡◌, IfOk, IsSome, Some};
ghost use Rattle.gate_base.specs.Prelude.{event_of};
ghost use Rattle.frag_join.specs.declared.taken.Taken.TheVariants.{Joined};
ghost use Rattle.frag_join.specs.Arrivals.{opened, taken_by, joiner_after, joined_in};
ghost use Rattle.frag_join.specs.Joining.{by_known};

use crate::{Joiner, Taken};
use gate_base::{Event, OutOfMemory};
use std::alloc::Global;

/// A joiner, where fragments are to be joined. It takes the memory for 64 datagrams. The error is that there is too little.
pub fn open_joiner(alloc: Global, join: bool) -> Result<Option<Joiner>, OutOfMemory>
    ensures { IfOk result (λ joiner. joiner ≡ opened join) }
{
    if join {
        Ok(Some(Joiner::new(alloc)?))
    } else {
        Ok(None)
    }
}

/// Asks the joiner what becomes of a frame. Without one, every frame is plain.
#[inline(always)]
pub fn ask(joiner: &mut Option<Joiner>, event: &Event<'_>) -> Taken
    ensures answer { result ≡ taken_by by_known joiner.old (event_of event.now) }
    ensures state { joiner.new
        ≡ joiner_after by_known joiner.old (event_of event.now) }
    ensures joined { result ≡ Joined → IsSome (joined_in joiner.new) }
{
    match joiner {
        Some(joiner) => joiner.take(event),
        None => Taken::Plain,
    }
}

/// The datagram that the last frame completed, as an event.
pub fn joined(joiner: &Option<Joiner>) -> Event<'_>
    requires { IsSome (joined_in joiner.now) }
    ensures { joined_in joiner.now ≡ Some (event_of result) }
{
    match joiner {
        Some(joiner) => joiner.event(),
        None => unreachable!(),
    }
}
