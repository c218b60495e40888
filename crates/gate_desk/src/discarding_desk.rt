// A desk that discards what is written.
ghost use Rattle.std.specs.Prelude.{◌≡◌, ◌<◌, ◌≤◌, ◌++◌, [], IfOk, IsOk, OnOk, OnErr, length, take, drop};
ghost use Rattle.gate_desk.specs.Discarded.{told_by};
ghost use Rattle.gate_desk.specs.Outside.{Starts, FailsToStart, Takes, AreNext, IsAtEnd, Writes, WritesPart, HasFailed};
ghost use Rattle.gate_desk.specs.Slots.{at, put, inputs};

use crate::{Access, Desk, Failed, PerSlot, Slot, Source};
use std::alloc::Global;
use std::marker::Model;

/// A desk that gives octets in memory to be read, and discards what is written. It tells what is left to be read, and nothing
/// of what is written and started. No call fails.
#[derive(Drop)]
pub struct DiscardingDesk {
    left: PerSlot<Source>,
}

impl Model for DiscardingDesk {
    ghost use Rattle.std.specs.Prelude.{List, ℕ};
    ghost use Rattle.gate_desk.specs.declared.slot.PerSlot.{PerSlot};

    ghost Value = { PerSlot (List ℕ) };

    ghost view = { λ d. d.left };
}

impl DiscardingDesk {
    /// A desk with these octets to be read.
    pub fn new(alloc: Global, settings: Vec<u8>, left: Vec<u8>, right: Vec<u8>) -> DiscardingDesk
        ensures { result ≡ inputs settings.items left.items right.items }
    {
        DiscardingDesk {
            left: PerSlot::inputs(alloc, settings, left, right),
        }
    }
}

impl Desk for DiscardingDesk {
    ghost outside = { told_by };

    ghost ready = { λ left slot. length (at left slot) };

    fn start(&mut self, _slot: Slot, _name: &str, _access: Access) -> Result<(), Failed>
        ensures ok { OnOk result
            (Starts _slot _name.now _access (told_by self.old) (told_by self.new)) }
        ensures err { OnErr result
            (FailsToStart _slot (told_by self.old) (told_by self.new)) }
        ensures leaves { OnOk result
            ((told_by self.new).start_faults ≡ (told_by self.old).start_faults) }
        ensures exact { IsOk result }
    {
        Ok(())
    }

    fn read(&mut self, slot: Slot, buffer: &mut [u8]) -> Result<usize, Failed>
        ensures fits { IfOk result (λ n. n ≤ length buffer.new) }
        ensures ok { IfOk result
            (λ n. Takes slot n (told_by self.old) (told_by self.new)) }
        ensures octets { IfOk result
            (λ n. AreNext (take n buffer.new) (told_by self.old) slot) }
        ensures end { IfOk result
            (λ n. n ≡ 0 → 0 < length buffer.old → IsAtEnd (told_by self.old) slot) }
        ensures err { OnErr result
            (Takes slot 0 (told_by self.old) (told_by self.new)) }
        ensures cause { OnErr result
            (HasFailed slot (told_by self.old) (told_by self.new)) }
        ensures leaves { OnOk result
            ((told_by self.new).faults ≡ (told_by self.old).faults) }
        ensures exact { IsOk result }
    {
        Ok(self.left.at_mut(slot).read(buffer))
    }

    fn write(&mut self, slot: Slot, piece: &[u8]) -> Result<usize, Failed>
        ensures fits { IfOk result (λ n. n ≤ length piece.now) }
        ensures some { IfOk result (λ n. 0 < length piece.now → 0 < n) }
        ensures ok { IfOk result (λ n. Writes slot (take n piece.now)
            (told_by self.old) (told_by self.new)) }
        ensures err { OnErr result
            (Writes slot [] (told_by self.old) (told_by self.new)) }
        ensures cause { OnErr result
            (HasFailed slot (told_by self.old) (told_by self.new)) }
        ensures leaves { OnOk result
            ((told_by self.new).faults ≡ (told_by self.old).faults) }
        ensures exact { IsOk result }
    {
        Ok(piece.len())
    }

    fn ahead(&self, slot: Slot) -> &[u8]
        ensures count { length result.now ≡ length (at self.now slot) }
        ensures octets { AreNext result.now (told_by self.now) slot }
        ensures exact { result.now ≡ at self.now slot }
    {
        self.left.at(slot).octets()
    }

    fn skip(&mut self, slot: Slot, count: usize)
        requires { count ≤ length (at self.old slot) }
        ensures takes { Takes slot count (told_by self.old) (told_by self.new) }
        ensures leaves { (told_by self.new).faults ≡ (told_by self.old).faults }
        ensures exact { self.new ≡ put self.old slot (drop count (at self.old slot)) }
    {
        self.left.at_mut(slot).skip(count);
    }

    fn write_both(&mut self, _slot: Slot, _first: &[u8], _second: &[u8]) -> Result<(), Failed>
        ensures ok { OnOk result (Writes _slot (_first.now ++ _second.now)
            (told_by self.old) (told_by self.new)) }
        ensures err { OnErr result (WritesPart _slot (_first.now ++ _second.now)
            (told_by self.old) (told_by self.new)) }
        ensures cause { OnErr result
            (HasFailed _slot (told_by self.old) (told_by self.new)) }
        ensures leaves { OnOk result
            ((told_by self.new).faults ≡ (told_by self.old).faults) }
        ensures exact { IsOk result }
    {
        Ok(())
    }
}
