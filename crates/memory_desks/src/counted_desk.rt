// A desk of which some calls fail.
ghost use Rattle.std.specs.Prelude.{◌≡◌, ◌+◌, ◌-◌, ◌<◌, ◌≤◌, ◌^◌, ◌↔◌, ◌⊎◌, ◌++◌, [], IsTrue, IsErr, IfOk, OnOk, OnErr, Contains, min, take, length};
ghost use Rattle.gate_desk.specs.Slots.{at};
ghost use Rattle.gate_desk.specs.Counts.{counts_after};
ghost use Rattle.memory_desks.specs.Memory.{total};
ghost use Rattle.memory_desks.specs.Counted.{IsListed, FailsToWrite, counted, counted_with, told_by};
ghost use Rattle.gate_desk.specs.Outside.{names_size, Starts, FailsToStart, Takes, AreNext, IsAtEnd, Writes, WritesPart, HasFailed};

use crate::MemoryDesk;
use gate_desk::{Access, Desk, Failed, Slot};
use std::marker::Model;

/// A desk in memory, of which the listed calls fail. Starts, reads and writes are counted together, from 1.
#[derive(Drop)]
pub struct CountedDesk {
    inner: MemoryDesk,
    failing: Vec<u64>,
    calls: u64,
}

impl Model for CountedDesk {
    ghost use Rattle.memory_desks.specs.Counted.{Counted};

    ghost Value = { Counted };

    ghost view = { λ d. record { inner = d.inner; failing = d.failing.items; calls = d.calls } };
}

fn is_listed(failing: &[u64], call: u64) -> bool
    ensures { IsTrue result ↔ Contains failing.now call }
{
    failing.contains(&call)
}

impl CountedDesk {
    /// The desk as it is, of which these calls are to fail.
    pub fn new(inner: MemoryDesk, failing: Vec<u64>) -> CountedDesk
        ensures { result
            ≡ record { inner = inner; failing = failing.items; calls = 0 } }
    {
        CountedDesk {
            inner,
            failing,
            calls: 0,
        }
    }

    /// What was written on a slot.
    pub fn output(&self, slot: Slot) -> &[u8]
        ensures { result.now ≡ at self.now.inner.written slot }
    {
        self.inner.output(slot)
    }

    /// Counts a call, and says whether it is to fail. A count that can't go on stands still, and no call after that is listed.
    fn next_call(&mut self) -> bool
        ensures listed { IsTrue result ↔ IsListed self.old }
        ensures after { self.new ≡ counted self.old }
    {
        if self.calls == u64::MAX {
            return false;
        }
        self.calls += 1;
        is_listed(&self.failing, self.calls)
    }

    // Writes a piece, by one call where it isn't empty.
    fn write_piece(&mut self, slot: Slot, piece: &[u8]) -> Result<(), Failed>
        ensures ok { OnOk result
            (Writes slot piece.now (told_by self.old) (told_by self.new)) }
        ensures err { OnErr result
            (Writes slot [] (told_by self.old) (told_by self.new)) }
        ensures cause { OnErr result
            (HasFailed slot (told_by self.old) (told_by self.new)) }
        ensures leaves { OnOk result
            ((told_by self.new).faults ≡ (told_by self.old).faults) }
        ensures exact { IsErr result ↔ FailsToWrite piece.now
            (total self.old.inner.written) self.old }
        ensures calls { self.new.calls ≡ (counted_with piece.now self.old).calls }
        ensures list { self.new.failing ≡ self.old.failing }
        ensures counts { self.new.inner.faults
            ≡ counts_after result slot self.old.inner.faults }
    {
        if piece.is_empty() {
            return Ok(());
        }
        self.write(slot, piece)?;
        Ok(())
    }
}

impl Desk for CountedDesk {
    ghost outside = { told_by };

    ghost ready = { λ d slot. 0 };

    /// Fails exactly where the call is listed or the names would be more than 64 KiB.
    fn start(&mut self, slot: Slot, name: &str, access: Access) -> Result<(), Failed>
        ensures ok { OnOk result
            (Starts slot name.now access (told_by self.old) (told_by self.new)) }
        ensures err { OnErr result
            (FailsToStart slot (told_by self.old) (told_by self.new)) }
        ensures leaves { OnOk result
            ((told_by self.new).start_faults ≡ (told_by self.old).start_faults) }
        ensures exact { IsErr result ↔ (IsListed self.old
            ⊎ (2 ^ 16 < names_size self.old.inner.starts + length name.now + 3)) }
        ensures calls { self.new.calls ≡ (counted self.old).calls }
        ensures list { self.new.failing ≡ self.old.failing }
        ensures counts { self.new.inner.start_faults
            ≡ counts_after result slot self.old.inner.start_faults }
    {
        if self.next_call() {
            self.inner.fail_start(slot);
            return Err(Failed);
        }
        self.inner.start(slot, name, access)
    }

    /// Fails exactly where the call is listed.
    fn read(&mut self, slot: Slot, buffer: &mut [u8]) -> Result<usize, Failed>
        ensures fits { IfOk result (λ n. n ≤ length buffer.new) }
        ensures ok { IfOk result
            (λ n. Takes slot n (told_by self.old) (told_by self.new)) }
        ensures octets { IfOk result
            (λ n. AreNext (take n buffer.new) (told_by self.old) slot) }
        ensures end { IfOk result
            (λ n. n ≡ 0 → 0 < length buffer.old → IsAtEnd (told_by self.old) slot) }
        ensures err { OnErr result
            (Takes slot 0 (told_by self.old) (told_by self.new)) }
        ensures cause { OnErr result
            (HasFailed slot (told_by self.old) (told_by self.new)) }
        ensures leaves { OnOk result
            ((told_by self.new).faults ≡ (told_by self.old).faults) }
        ensures exact { IsErr result ↔ IsListed self.old }
        ensures calls { self.new.calls ≡ (counted self.old).calls }
        ensures list { self.new.failing ≡ self.old.failing }
        ensures counts { self.new.inner.faults
            ≡ counts_after result slot self.old.inner.faults }
    {
        if self.next_call() {
            self.inner.fail_call(slot);
            return Err(Failed);
        }
        self.inner.read(slot, buffer)
    }

    /// Fails exactly where the call is listed or the octets of all slots would be more than 64 MiB.
    fn write(&mut self, slot: Slot, piece: &[u8]) -> Result<usize, Failed>
        ensures fits { IfOk result (λ n. n ≤ length piece.now) }
        ensures some { IfOk result (λ n. 0 < length piece.now → 0 < n) }
        ensures whole { IfOk result (λ n. n ≡ length piece.now) }
        ensures ok { IfOk result (λ n. Writes slot (take n piece.now)
            (told_by self.old) (told_by self.new)) }
        ensures err { OnErr result
            (Writes slot [] (told_by self.old) (told_by self.new)) }
        ensures cause { OnErr result
            (HasFailed slot (told_by self.old) (told_by self.new)) }
        ensures leaves { OnOk result
            ((told_by self.new).faults ≡ (told_by self.old).faults) }
        ensures exact { IsErr result ↔ (IsListed self.old
            ⊎ (2 ^ 26 < total self.old.inner.written + length piece.now)) }
        ensures calls { self.new.calls ≡ (counted self.old).calls }
        ensures list { self.new.failing ≡ self.old.failing }
        ensures counts { self.new.inner.faults
            ≡ counts_after result slot self.old.inner.faults }
    {
        if self.next_call() {
            self.inner.fail_call(slot);
            return Err(Failed);
        }
        self.inner.write(slot, piece)
    }

    /// Nothing stands ready, so that all is read by calls that are counted.
    fn ahead(&self, _slot: Slot) -> &[u8]
        ensures count { length result.now ≡ 0 }
        ensures octets { AreNext result.now (told_by self.now) _slot }
    {
        &[]
    }

    fn skip(&mut self, _slot: Slot, _count: usize)
        requires { _count ≤ 0 }
        ensures takes { Takes _slot _count (told_by self.old) (told_by self.new) }
        ensures leaves { (told_by self.new).faults ≡ (told_by self.old).faults }
        ensures exact { self.new ≡ self.old }
    {}

    /// Writes the one piece and then the other, each by a call that is counted, and none for an empty one.
    fn write_both(&mut self, slot: Slot, first: &[u8], second: &[u8]) -> Result<(), Failed>
        ensures ok { OnOk result (Writes slot (first.now ++ second.now)
            (told_by self.old) (told_by self.new)) }
        ensures err { OnErr result (WritesPart slot (first.now ++ second.now)
            (told_by self.old) (told_by self.new)) }
        ensures cause { OnErr result
            (HasFailed slot (told_by self.old) (told_by self.new)) }
        ensures leaves { OnOk result
            ((told_by self.new).faults ≡ (told_by self.old).faults) }
        ensures exact { IsErr result ↔ (FailsToWrite first.now
            (total self.old.inner.written) self.old
            ⊎ FailsToWrite second.now
            (total self.old.inner.written + length first.now)
            (counted_with first.now self.old)) }
        ensures stops { FailsToWrite first.now (total self.old.inner.written) self.old
            → self.new.calls ≡ (counted_with first.now self.old).calls }
        ensures goes_on { ¬ FailsToWrite first.now (total self.old.inner.written)
            self.old
            → self.new.calls
            ≡ (counted_with second.now (counted_with first.now self.old)).calls }
        ensures list { self.new.failing ≡ self.old.failing }
        ensures counts { self.new.inner.faults
            ≡ counts_after result slot self.old.inner.faults }
    {
        self.write_piece(slot, first)?;
        self.write_piece(slot, second)
    }
}
