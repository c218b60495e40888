ghost use Rattle.std.specs.Prelude.{◌≡◌};

use gate_base::Side;
use gate_desk::Slot;
use lawful_files::AuditReason;
use pcap_files::CaptureFault;
use settings_file::SettingsFault;

/// What a call of the gateway comes to.
#[derive(Clone, Copy)]
pub enum Status {
    /// All was accepted, both captures were read to their ends, and all was written; or the given files are lawful.
    Done,
    /// The words are no command.
    Usage,
    /// The settings have this first fault.
    SettingsRefused(SettingsFault),
    /// The capture of this side has this fault at this octet, where the merge of both met it.
    CaptureRefused(Side, CaptureFault, u64),
    /// A read of this slot failed.
    ReadFault(Slot),
    /// A write of this slot failed.
    WriteFault(Slot),
    /// This slot could not be started.
    OpenFault(Slot),
    /// Memory ran out.
    OutOfMemory,
    /// The given files aren't lawful, at the event of this number, for this reason.
    Unlawful(u64, AuditReason),
}

impl Status {
    ghost use Rattle.run_setup.specs.Status.{code_of};

    /// The exit status of the program.
    pub fn code(&self) -> u8
        ensures { result ≡ code_of self.now }
    {
        match self {
            Status::Done => 0,
            Status::Usage => 2,
            Status::SettingsRefused(_) => 3,
            Status::CaptureRefused(_, _, _) => 4,
            Status::ReadFault(_) => 5,
            Status::WriteFault(_) => 6,
            Status::OpenFault(_) => 7,
            Status::OutOfMemory => 8,
            Status::Unlawful(_, _) => 9,
        }
    }
}
