// A desk in memory.
ghost use Rattle.std.specs.Prelude.{◌≡◌, ◌+◌, ◌^◌, ◌<◌, ◌≤◌, ◌↔◌, ◌++◌, [], Some, take, drop, IfOk, OnOk, OnErr, IsOk, IsErr, length};
ghost use Rattle.gate_desk.specs.Slots.{at, put};
ghost use Rattle.gate_desk.specs.Counts.{raised, counts_after};
ghost use Rattle.memory_desks.specs.Memory.{total, told_of};
ghost use Rattle.gate_desk.specs.Outside.{names_size, Starts, FailsToStart, Takes, AreNext, IsAtEnd, Writes, WritesPart, HasFailed};

use crate::log::StartLog;
use crate::sink::{Sink, total_of};
use gate_base::OutOfMemory;
use gate_desk::{Access, Desk, Failed, PerSlot, Slot, Source};
use std::alloc::Global;
use std::marker::Model;

/// The most octets that are written to all slots together: 64 MiB.
const WRITTEN_LIMIT: usize = 1 << 26;

/// The most octets of names, three more for each, of all starts together: 64 KiB.
const NAMES_LIMIT: usize = 1 << 16;

/// A desk that holds its slots in memory and tells all. A start's name changes nothing of what a slot holds.
#[derive(Drop)]
pub struct MemoryDesk {
    left: PerSlot<Source>,
    written: PerSlot<Sink>,
    log: StartLog,
    faults: PerSlot<u64>,
    start_faults: PerSlot<u64>,
}

/// What an audit is to judge: two captures and a report that some gateway made.
#[derive(Drop)]
pub struct Given {
    /// The capture of the frames that go to the left realm.
    pub left: Vec<u8>,
    /// The capture of the frames that go to the right realm.
    pub right: Vec<u8>,
    /// The report, in whatever form.
    pub report: Vec<u8>,
}

impl Model for MemoryDesk {
    ghost use Rattle.memory_desks.specs.Memory.{Memory};

    ghost Value = { Memory };

    ghost view = { λ d. record { left = d.left; written = d.written; starts = d.log; faults = d.faults; start_faults = d.start_faults } };
}

// Three slots on which nothing is written, with their room.
fn three_sinks(alloc: Global) -> Result<(Sink, Sink, Sink), OutOfMemory>
    ensures { IfOk result
        (λ three. (three.0 ≡ []) × (three.1 ≡ []) × (three.2 ≡ [])) }
{
    Ok((Sink::new(alloc)?, Sink::new(alloc)?, Sink::new(alloc)?))
}

impl MemoryDesk {
    ghost use Rattle.memory_desks.specs.Memory.{opening, opening_of, audit_inputs};

    /// A desk with these octets to be read, nothing written, no start and no fault. It takes all its memory here.
    pub fn new(
        alloc: Global,
        settings: Vec<u8>,
        left: Vec<u8>,
        right: Vec<u8>,
    ) -> Result<MemoryDesk, OutOfMemory>
        ensures { IfOk result
            (λ d. d ≡ opening settings.items left.items right.items) }
    {
        MemoryDesk::over(alloc, PerSlot::inputs(alloc, settings, left, right))
    }

    /// The same, and the files that an audit is to judge.
    pub fn make_audit(
        alloc: Global,
        settings: Vec<u8>,
        left: Vec<u8>,
        right: Vec<u8>,
        given: Given,
    ) -> Result<MemoryDesk, OutOfMemory>
        ensures { IfOk result (λ d. d
            ≡ opening_of (audit_inputs settings.items left.items right.items
            given.left.items given.right.items given.report.items)) }
    {
        let mut sources = PerSlot::inputs(alloc, settings, left, right);
        let Given {
            left,
            right,
            report,
        } = given;
        sources.left_given = Source::new(left);
        sources.right_given = Source::new(right);
        sources.report_given = Source::new(report);
        MemoryDesk::over(alloc, sources)
    }

    // A desk with these octets to be read. It takes its other memory here.
    fn over(alloc: Global, left: PerSlot<Source>) -> Result<MemoryDesk, OutOfMemory>
        ensures { IfOk result (λ d. d ≡ opening_of left) }
    {
        let (settings, left_in, right_in) = three_sinks(alloc)?;
        let (left_given, right_given, report_given) = three_sinks(alloc)?;
        let (left_out, right_out, report) = three_sinks(alloc)?;
        let written = PerSlot {
            settings,
            left_in,
            right_in,
            left_given,
            right_given,
            report_given,
            left_out,
            right_out,
            report,
            errors: Sink::new(alloc)?,
        };
        Ok(MemoryDesk {
            left,
            written,
            log: StartLog::new(alloc)?,
            faults: PerSlot::no_counts(),
            start_faults: PerSlot::no_counts(),
        })
    }

    /// What was written on a slot.
    pub fn output(&self, slot: Slot) -> &[u8]
        ensures { result.now ≡ at self.now.written slot }
    {
        self.written.at(slot).octets()
    }

    pub(crate) fn fail_start(&mut self, slot: Slot)
        ensures { self.new
            ≡ record self.old {
              start_faults = put self.old.start_faults slot
                  (raised (at self.old.start_faults slot));
            } }
    {
        self.start_faults.raise(slot);
    }

    pub(crate) fn fail_call(&mut self, slot: Slot)
        ensures { self.new
            ≡ record self.old {
              faults = put self.old.faults slot
                  (raised (at self.old.faults slot));
            } }
    {
        self.faults.raise(slot);
    }
}

impl Desk for MemoryDesk {
    ghost outside = { told_of };

    ghost ready = { λ m slot. length (at m.left slot) };

    /// Fails exactly where the names would be more than 64 KiB.
    fn start(&mut self, slot: Slot, name: &str, access: Access) -> Result<(), Failed>
        ensures ok { OnOk result
            (Starts slot name.now access (told_of self.old) (told_of self.new)) }
        ensures err { OnErr result
            (FailsToStart slot (told_of self.old) (told_of self.new)) }
        ensures leaves { OnOk result
            ((told_of self.new).start_faults ≡ (told_of self.old).start_faults) }
        ensures exact { IsErr result ↔
            (2 ^ 16 < names_size self.old.starts + length name.now + 3) }
        ensures counts { self.new.start_faults
            ≡ counts_after result slot self.old.start_faults }
    {
        if name.len() > NAMES_LIMIT || self.log.size() + name.len() + 3 > NAMES_LIMIT {
            self.start_faults.raise(slot);
            return Err(Failed);
        }
        self.log.push(slot, name.as_bytes(), access);
        Ok(())
    }

    /// Never fails.
    fn read(&mut self, slot: Slot, buffer: &mut [u8]) -> Result<usize, Failed>
        ensures fits { IfOk result (λ n. n ≤ length buffer.new) }
        ensures ok { IfOk result
            (λ n. Takes slot n (told_of self.old) (told_of self.new)) }
        ensures octets { IfOk result
            (λ n. AreNext (take n buffer.new) (told_of self.old) slot) }
        ensures end { IfOk result
            (λ n. n ≡ 0 → 0 < length buffer.old → IsAtEnd (told_of self.old) slot) }
        ensures err { OnErr result
            (Takes slot 0 (told_of self.old) (told_of self.new)) }
        ensures cause { OnErr result
            (HasFailed slot (told_of self.old) (told_of self.new)) }
        ensures leaves { OnOk result
            ((told_of self.new).faults ≡ (told_of self.old).faults) }
        ensures exact { IsOk result }
        ensures counts { self.new.faults ≡ self.old.faults }
    {
        Ok(self.left.at_mut(slot).read(buffer))
    }

    /// Fails exactly where the octets of all slots would be more than 64 MiB.
    fn write(&mut self, slot: Slot, piece: &[u8]) -> Result<usize, Failed>
        ensures fits { IfOk result (λ n. n ≤ length piece.now) }
        ensures some { IfOk result (λ n. 0 < length piece.now → 0 < n) }
        ensures whole { IfOk result (λ n. n ≡ length piece.now) }
        ensures ok { IfOk result (λ n. Writes slot (take n piece.now)
            (told_of self.old) (told_of self.new)) }
        ensures err { OnErr result
            (Writes slot [] (told_of self.old) (told_of self.new)) }
        ensures cause { OnErr result
            (HasFailed slot (told_of self.old) (told_of self.new)) }
        ensures leaves { OnOk result
            ((told_of self.new).faults ≡ (told_of self.old).faults) }
        ensures exact { IsErr result ↔
            (2 ^ 26 < total self.old.written + length piece.now) }
        ensures counts { self.new.faults ≡ counts_after result slot self.old.faults }
    {
        if piece.len() > WRITTEN_LIMIT || total_of(&self.written) + piece.len() > WRITTEN_LIMIT {
            self.faults.raise(slot);
            return Err(Failed);
        }
        self.written.at_mut(slot).push(piece);
        Ok(piece.len())
    }

    /// All that is left stands ready.
    fn ahead(&self, slot: Slot) -> &[u8]
        ensures count { length result.now ≡ length (at self.now.left slot) }
        ensures octets { AreNext result.now (told_of self.now) slot }
        ensures exact { result.now ≡ at self.now.left slot }
    {
        self.left.at(slot).octets()
    }

    fn skip(&mut self, slot: Slot, count: usize)
        requires { count ≤ length (at self.old.left slot) }
        ensures takes { Takes slot count (told_of self.old) (told_of self.new) }
        ensures leaves { (told_of self.new).faults ≡ (told_of self.old).faults }
        ensures exact { self.new
            ≡ record self.old {
              left = put self.old.left slot (drop count (at self.old.left slot));
            } }
    {
        self.left.at_mut(slot).skip(count);
    }

    /// Fails exactly where the octets of all slots would be more than 64 MiB, and then writes nothing.
    fn write_both(&mut self, slot: Slot, first: &[u8], second: &[u8]) -> Result<(), Failed>
        ensures ok { OnOk result (Writes slot (first.now ++ second.now)
            (told_of self.old) (told_of self.new)) }
        ensures err { OnErr result (WritesPart slot (first.now ++ second.now)
            (told_of self.old) (told_of self.new)) }
        ensures cause { OnErr result
            (HasFailed slot (told_of self.old) (told_of self.new)) }
        ensures leaves { OnOk result
            ((told_of self.new).faults ≡ (told_of self.old).faults) }
        ensures exact { IsErr result ↔ (2 ^ 26
            < total self.old.written + (length first.now + length second.now)) }
        ensures counts { self.new.faults ≡ counts_after result slot self.old.faults }
    {
        if first.len() > WRITTEN_LIMIT
            || second.len() > WRITTEN_LIMIT
            || total_of(&self.written) + first.len() + second.len() > WRITTEN_LIMIT
        {
            self.faults.raise(slot);
            return Err(Failed);
        }
        let sink = self.written.at_mut(slot);
        sink.push(first);
        sink.push(second);
        Ok(())
    }
}
