// One event of the gate.
ghost use Rattle.std.specs.Prelude.{◌≡◌, [], Ok, Err, IfOk, OnErr, OnOk};
ghost use Rattle.gate_base.specs.Prelude.{IsMoment, event_of};
ghost use Rattle.gate_model.specs.Prelude.{opening_world, at_moment, next, out, verdict, verdict_of};
ghost use Rattle.gate_sessions.specs.Compact.{compact_rules};
ghost use Rattle.gate_core.specs.Memory.{GateMayWant};
ghost use Rattle.gate_settings.specs.Prelude.{IsSound, HasForms};
ghost use Rattle.event_state.specs.Given.{refusal_of};

use crate::salt::salt_of;
use event_outbox::Datagrams;
use event_state::{State, Taken};
use expiring_table::Seed;
use gate_base::{Event, Moment, OutOfMemory};
use gate_sessions::AnySession;
use gate_settings::Settings;
use std::alloc::Global;
use std::marker::Model;
use verdicts::Verdict;

/// The settings, and what is known.
pub struct Gate {
    settings: Settings,
    state: State<AnySession>,
    // what the tables spread their keys by besides, until the first event
    salt: Option<u64>,
}

// By a call of its own, since a drop that is written out wherever it happens is slow to prove.
impl Drop for Gate {
    fn drop(self) {
        let Self {
            settings,
            state,
            salt,
        } = self;
    }
}

impl Model for Gate {
    ghost use Rattle.gate_model.specs.Prelude.{KeepsListed};
    ghost use Rattle.gate_sessions.specs.Compact.{compact_rules};
    ghost use Rattle.gate_core.specs.Gates.{Gateway};
    ghost use Rattle.event_state.specs.Knowing.{world_in};

    ghost Value = { Gateway };

    ghost view = { λ g. record { settings = g.settings; world = world_in g.state } };

    ghost invariant = { λ g. KeepsListed compact_rules (world_in g.state) };
}

impl Gate {
    /// A gate to which nothing has come. The seed spreads the keys of the tables, and changes no answer.
    pub fn new(alloc: Global, settings: Settings, seed: u64) -> Result<Gate, OutOfMemory>
        requires sound { IsSound settings }
        requires forms { HasForms settings }
        ensures { IfOk result (λ gate. gate
            ≡ record { settings = settings; world = opening_world settings }) }
    {
        let salt = salt_of(&settings) ^ seed;
        Ok(Gate {
            state: State::new(alloc, &settings, Seed::from_number(salt))?,
            salt: Some(salt),
            settings,
        })
    }

    /// The settings.
    pub fn settings(&self) -> &Settings
        ensures { result.now ≡ self.now.settings }
    {
        &self.settings
    }

    /// The greatest number of changed lines that ever waited in one direction to be acknowledged.
    pub fn pending(&self) -> u64
        ensures { result ≡ self.now.world.pending }
    {
        self.state.pending
    }

    /// Takes an event, whose moment isn't before that of an earlier one. Its frame passes, or is refused for the first reason
    /// that holds, and its datagrams are put into the outbox. A refused one moves the clock, by which bindings and connections
    /// may end, and changes nothing else. One for which memory runs out changes nothing else either.
    ///
    /// Memory may run out only at these frames, if neither the frame by itself nor its addresses are refused. The first is a
    /// datagram of DNS. The second is a segment that isn't refused, and that is the first of a session or completes a line that
    /// bears an address. The third is one that completes a unit of a session of DNS, which doesn't refuse it.
    pub fn step(
        &mut self,
        event: &Event<'_>,
        outbox: &mut Datagrams,
    ) -> Result<Verdict, OutOfMemory>
        requires moment { IsMoment event.now.moment.0 }
        ensures verdict { IfOk result
            (λ v. v ≡ verdict compact_rules self.old.world (event_of event.now)) }
        ensures next { OnOk result (self.new
            ≡ record self.old {
              world = next compact_rules self.old.world (event_of event.now);
            }) }
        ensures out { OnOk result
            (outbox.new ≡ out compact_rules self.old.world (event_of event.now)) }
        ensures memory { OnErr result ((self.new
            ≡ record self.old {
              world = at_moment self.old.world event.now.moment.0;
            })
            × (outbox.new ≡ [])) }
        ensures wants { OnErr result (GateMayWant
            (at_moment self.old.world event.now.moment.0) (event_of event.now)) }
    {
        self.spread_keys(event.moment);
        self.state.expire(event.moment);
        outbox.clear();
        let taken = self.state.take_frame(event, outbox)?;
        Ok(verdict_of(&taken))
    }

    // Before the first event, spreads the keys of the tables by its moment too, which no sender knows before.
    fn spread_keys(&mut self, moment: Moment)
        ensures { self.new ≡ self.old }
    {
        let Some(salt) = self.salt else {
            return;
        };
        self.state.reseed(Seed::from_number(salt ^ moment.0));
        self.salt = None;
    }
}

/// The gateway's verdict on a frame of which this became.
fn verdict_of(taken: &Taken<()>) -> Verdict
    ensures { result ≡ verdict_of (refusal_of taken.now) }
{
    match taken {
        Taken::Refused(refusal) => Verdict::Refused(*refusal),
        Taken::Whole => Verdict::Pass,
        Taken::Cut(_) => Verdict::Pass,
    }
}
