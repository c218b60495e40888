// A run over files: what it reads first, and the events of both captures.
ghost use Rattle.std.specs.Prelude.{[], ◌≡◌, MatchResult, OnErr, ◌≤◌, ◌^◌, None};
ghost use Rattle.gate_desk.specs.Outside.{Outside, CanRead, CanWrite, Grows};
ghost use Rattle.run_setup.specs.RunNames.{names_of, first_starts};
ghost use Rattle.run_setup.specs.declared.status.Status.TheVariants.{OutOfMemory};
ghost use Rattle.gate_settings.specs.Prelude.{HasForms, IsSound};
ghost use Rattle.gate_model.specs.Prelude.{opening_world};
ghost use Rattle.pcap_merge.specs.Prelude.{TakenFor, work, AtEnds};
ghost use Rattle.run_setup.specs.Prelude.{TookInputs};
ghost use Rattle.gate_desk.specs.declared.slot.Slot.TheVariants.{LeftIn, RightIn, LeftOut, RightOut, Report};
ghost use Rattle.frag_join.specs.Prelude.{opened};
ghost use Rattle.gateway.specs.Inside.Phases.{Prepared, IsPrepared, EndsUnwritten, Forwards, TookFew};
ghost use Rattle.gateway.specs.Answers.{Runs, TookForWritten};

use crate::event::take;
use crate::outputs::ready;
use crate::report::Reporter;
use frag_join::{Joiner, open_joiner};
use gate_core::{Datagrams, Gate};
use gate_desk::Desk;
use gate_report::Line;
use gate_settings::Settings;
use pcap_merge::Merge;
use run_setup::{FileNames, Status, begin, read_settings_file};
use std::alloc::Global;

/// A run over these files. It answers the last line of its report.
pub fn run<D: Desk>(alloc: Global, desk: &mut D, names: FileNames<'_>) -> Result<Line, Status>
    ensures answer { Runs result (names_of names.entry) (D.outside desk.old)
        (D.outside desk.new) }
    ensures taken { TookForWritten (D.outside desk.old) (D.outside desk.new) }
{
    let (mut merge, mut gate) = prepare(alloc, desk, names)?;
    run_prepared(alloc, desk, names, &mut merge, &mut gate)
}

/// The rest of a run whose settings and heads were read.
fn run_prepared<D: Desk>(
    alloc: Global,
    desk: &mut D,
    names: FileNames<'_>,
    merge: &mut Merge,
    gate: &mut Gate,
) -> Result<Line, Status>
    requires { IsPrepared gate.old merge.old (names_of names) (D.outside desk.old) }
    ensures answer { (since : Outside)
        → Prepared gate.old merge.old (first_starts (names_of names.entry)) since
        (D.outside desk.old)
        → Runs result (names_of names.entry) since (D.outside desk.new) }
    ensures taken { (since : Outside)
        → Prepared gate.old merge.old (first_starts (names_of names.entry)) since
        (D.outside desk.old)
        → TookForWritten since (D.outside desk.new) }
{
    let mut outbox = Datagrams::new(alloc)?;
    let mut joiner = open_joiner(alloc, gate.settings().join)?;
    ready(desk, names, gate.settings())?;
    forward(alloc, desk, merge, &mut joiner, gate, &mut outbox)
}

/// Reads the settings and both heads, and makes the gate.
fn prepare<D: Desk>(
    alloc: Global,
    desk: &mut D,
    names: FileNames<'_>,
) -> Result<(Merge, Gate), Status>
    ensures answer { MatchResult result
        (λ p. Prepared p.1 p.0 (first_starts (names_of names.entry))
        (D.outside desk.old) (D.outside desk.new)) (λ status. EndsUnwritten status
        (names_of names.entry) (D.outside desk.old) (D.outside desk.new)) }
    ensures taken { OnErr result
        (TakenFor [] (D.outside desk.old) (D.outside desk.new)) }
    ensures inputs { TookInputs (D.outside desk.old) (D.outside desk.new) }
{
    let settings = read_settings_file(alloc, desk, names.settings)?;
    let merge = begin(alloc, desk, names.left_in, names.right_in)?;
    gate_of(alloc, merge, settings, desk.seed())
}

/// The gate by these settings, beside the merge.
fn gate_of(
    alloc: Global,
    merge: Merge,
    settings: Settings,
    seed: u64,
) -> Result<(Merge, Gate), Status>
    requires sound { IsSound settings }
    requires forms { HasForms settings }
    ensures { MatchResult result
        (λ p. (p.0 ≡ merge)
        × (p.1 ≡ record { settings = settings; world = opening_world settings }))
        (λ status. status ≡ OutOfMemory) }
{
    let gate = Gate::new(alloc, settings, seed)?;
    Ok((merge, gate))
}

/// Takes the events of both captures: the frames and the line of each are written before the next record is read. It answers
/// the last line of the report, once that is written.
#[inline(never)]
fn forward<D: Desk>(
    alloc: Global,
    desk: &mut D,
    merge: &mut Merge,
    joiner: &mut Option<Joiner>,
    gate: &mut Gate,
    outbox: &mut Datagrams,
) -> Result<Line, Status>
    requires left_in { CanRead (D.outside desk.old) LeftIn }
    requires right_in { CanRead (D.outside desk.old) RightIn }
    requires left_out { CanWrite (D.outside desk.old) LeftOut }
    requires right_out { CanWrite (D.outside desk.old) RightOut }
    requires report { CanWrite (D.outside desk.old) Report }
    requires stop { merge.old.stop ≡ None }
    requires work { work merge.old ≤ 2 ^ 41 }
    requires ends { AtEnds merge.old (D.outside desk.old) }
    requires joiner { joiner.old ≡ opened gate.old.settings.join }
    requires world { gate.old.world ≡ opening_world gate.old.settings }
    ensures answer { Forwards result gate.old.settings merge.old (D.outside desk.old)
        (D.outside desk.new) }
    ensures taken { TookFew gate.old.settings merge.old (D.outside desk.old)
        (D.outside desk.new) }
    ensures starts { (D.outside desk.new).starts ≡ (D.outside desk.old).starts }
    ensures counts { Grows (D.outside desk.old) (D.outside desk.new) }
{
    let mut reporter = Reporter::new(alloc);
    'events: loop {
        let more = merge.advance(desk)?;
        if !more {
            return reporter.finish(desk, gate.settings().report, gate.pending());
        }
        take(desk, joiner, gate, outbox, &mut reporter, merge.event())?;
    }
}
