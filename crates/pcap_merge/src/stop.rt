// Why the merge of two captures stopped.
ghost use Rattle.std.specs.Prelude.{◌≡◌};
ghost use Rattle.pcap_merge.specs.Stops.{stop_of};

use gate_base::Side;
use gate_desk::Slot;
use pcap_files::{CaptureFault, ReadStop};

/// Why the merge of two captures stopped.
#[derive(Clone, Copy, Debug, PartialEq, Eq)]
pub enum MergeStop {
    /// The capture of this side is faulty: at 0 for its head, else at the octet at which the faulty record begins.
    Fault(Side, CaptureFault, u64),
    /// The desk failed to read the slot.
    Desk(Slot),
    /// There was no room for a record.
    OutOfMemory,
}

/// The stop of a merge whose reader of this side stopped.
pub fn stop_of(side: Side, stop: ReadStop) -> MergeStop
    ensures { result ≡ stop_of side stop }
{
    match stop {
        ReadStop::Fault(fault, place) => MergeStop::Fault(side, fault, place),
        ReadStop::Desk(slot) => MergeStop::Desk(slot),
        ReadStop::OutOfMemory => MergeStop::OutOfMemory,
    }
}
