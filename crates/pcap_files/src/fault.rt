// What is wrong with a capture, and why its reading stopped.
ghost use Rattle.std.specs.Prelude.{◌≡◌, ◌≤◌, length};
ghost use Rattle.pcap_files.specs.Faults.{name_of};

use gate_desk::Slot;
use std::fmt;

/// What is wrong with a capture.
#[derive(Clone, Copy, Debug, PartialEq, Eq)]
pub enum CaptureFault {
    /// It has fewer octets than a head, 24.
    NoHead,
    /// It begins with the magic number of no form.
    Magic,
    /// Its link type is neither 1 nor 101.
    Link,
    /// A record keeps more than 262,144 octets.
    RecordTooLong,
    /// It ends inside a record.
    Torn,
    /// A record would end past 2^40 octets.
    CaptureTooLong,
    /// The fraction of a record's stamp is a second or more.
    Stamp,
}

impl CaptureFault {
    /// The fault's name in the line about what went wrong.
    #[tactic(auto, unfolding(crate::specs::Faults::name_of))]
    pub fn name(self) -> &'static str
        ensures name { result.now ≡ name_of self }
        ensures short { length result.now ≤ 14 }
    {
        match self {
            CaptureFault::NoHead => "NoHead",
            CaptureFault::Magic => "Magic",
            CaptureFault::Link => "Link",
            CaptureFault::RecordTooLong => "RecordTooLong",
            CaptureFault::Torn => "Torn",
            CaptureFault::CaptureTooLong => "CaptureTooLong",
            CaptureFault::Stamp => "Stamp",
        }
    }
}

impl fmt::Display for CaptureFault {
    ghost use Rattle.std.specs.Prelude.{Some};

    ghost output = { λ fault. Some (name_of fault) };

    fn fmt<W: fmt::Write>(&self, f: &mut fmt::Formatter<W>) -> fmt::Result {
        f.pad(self.name())
    }
}

/// Why the reading of a capture stopped.
#[derive(Clone, Copy, Debug, PartialEq, Eq)]
pub enum ReadStop {
    /// The capture is faulty: at 0 for its head, else at the octet at which the faulty record begins.
    Fault(CaptureFault, u64),
    /// The desk failed to read the slot.
    Desk(Slot),
    /// There was no room for a record.
    OutOfMemory,
}
