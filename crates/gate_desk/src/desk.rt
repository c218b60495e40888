// The outside of the program, as far as it matters.
ghost use Rattle.std.specs.Prelude.{◌≡◌, ◌<◌, ◌≤◌, ◌++◌, ℕ, take, length, IfOk, OnOk, OnErr, MatchResult, []};
ghost use Rattle.gate_desk.specs.declared.slot.Slot.{Slot};
ghost use Rattle.gate_desk.specs.Outside.{Outside, Starts, FailsToStart, Takes, AreNext, IsAtEnd, Writes, WritesPart, HasFailed, CanRead, CanWrite};

use crate::{Access, Slot};

/// A start, a read or a write failed, and the desk counted it.
#[derive(Clone, Copy, Debug, PartialEq, Eq)]
pub struct Failed;

/// Ten slots that are started, read and written. A desk tells what its slots hold, or it tells nothing; in either case it
/// counts failed starts, and failed reads and writes, of each slot. A call that succeeds leaves the counts.
pub trait Desk {
    /// The outside as far as the desk tells it, and the counts of what has failed.
    ghost outside: { Self → Outside };

    /// How many octets of a slot stand ready, to be looked at before they are taken.
    ghost ready: { Self → Slot → ℕ };

    /// Prepares a slot under a name. It fails only where the slot's count of failed starts rose, and changes no contents.
    fn start(&mut self, slot: Slot, name: &str, access: Access) -> Result<(), Failed>
        ensures ok { OnOk result
            (Starts slot name.now access (outside self.old) (outside self.new)) }
        ensures err { OnErr result
            (FailsToStart slot (outside self.old) (outside self.new)) }
        ensures leaves { OnOk result
            ((outside self.new).start_faults ≡ (outside self.old).start_faults) };

    /// Takes octets from the front of a slot whose last start is for reading, and answers how many. None come, for a buffer
    /// with room, only at the slot's end. It fails only where the slot's count of faults rose, and then takes nothing.
    fn read(&mut self, slot: Slot, buffer: &mut [u8]) -> Result<usize, Failed>
        requires { CanRead (outside self.old) slot }
        ensures fits { IfOk result (λ n. n ≤ length buffer.new) }
        ensures ok { IfOk result
            (λ n. Takes slot n (outside self.old) (outside self.new)) }
        ensures octets { IfOk result
            (λ n. AreNext (take n buffer.new) (outside self.old) slot) }
        ensures end { IfOk result
            (λ n. n ≡ 0 → 0 < length buffer.old → IsAtEnd (outside self.old) slot) }
        ensures err { OnErr result
            (Takes slot 0 (outside self.old) (outside self.new)) }
        ensures cause { OnErr result
            (HasFailed slot (outside self.old) (outside self.new)) }
        ensures leaves { OnOk result
            ((outside self.new).faults ≡ (outside self.old).faults) };

    /// Appends the first octets of a piece to a slot whose last start is for writing, and answers how many: of a piece that
    /// isn't empty at least one. It fails only where the slot's count of faults rose, and then writes nothing.
    fn write(&mut self, slot: Slot, piece: &[u8]) -> Result<usize, Failed>
        requires { CanWrite (outside self.old) slot }
        ensures fits { IfOk result (λ n. n ≤ length piece.now) }
        ensures some { IfOk result (λ n. 0 < length piece.now → 0 < n) }
        ensures ok { IfOk result (λ n. Writes slot (take n piece.now)
            (outside self.old) (outside self.new)) }
        ensures err { OnErr result
            (Writes slot [] (outside self.old) (outside self.new)) }
        ensures cause { OnErr result
            (HasFailed slot (outside self.old) (outside self.new)) }
        ensures leaves { OnOk result
            ((outside self.new).faults ≡ (outside self.old).faults) };

    /// The next octets of a slot that stand ready. There may be none though more are to come.
    fn ahead(&self, slot: Slot) -> &[u8]
        ensures count { length result.now ≡ ready self.now slot }
        ensures octets { AreNext result.now (outside self.now) slot };

    /// Drops so many of the octets that stand ready.
    fn skip(&mut self, slot: Slot, count: usize)
        requires { count ≤ ready self.old slot }
        ensures takes { Takes slot count (outside self.old) (outside self.new) }
        ensures leaves { (outside self.new).faults ≡ (outside self.old).faults };

    /// A number that spreads the keys of tables. No answer depends on it. A desk over real files has one that nobody else knows, so
    /// that nobody can choose keys which lie close together.
    fn seed(&self) -> u64 {
        0
    }

    /// Appends two pieces whole, the one behind the other. It fails only where the slot's count of faults rose; a prefix of
    /// both was written then.
    fn write_both(&mut self, slot: Slot, first: &[u8], second: &[u8]) -> Result<(), Failed>
        requires { CanWrite (outside self.old) slot }
        ensures ok { OnOk result (Writes slot (first.now ++ second.now)
            (outside self.old) (outside self.new)) }
        ensures err { OnErr result (WritesPart slot (first.now ++ second.now)
            (outside self.old) (outside self.new)) }
        ensures cause { OnErr result
            (HasFailed slot (outside self.old) (outside self.new)) }
        ensures leaves { OnOk result
            ((outside self.new).faults ≡ (outside self.old).faults) };
}
