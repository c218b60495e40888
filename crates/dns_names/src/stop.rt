// Why a reader stops.
ghost use Rattle.std.specs.Prelude.{◌≡◌};
ghost use Rattle.dns_names.specs.declared.stop.NameStop.TheVariants.{OutOfMemory};

use std::alloc::{AllocError, AllocFailed};

/// Why a name or a message can't be read.
#[derive(Clone, Copy, Debug, PartialEq, Eq)]
pub enum NameStop {
    /// The octets are none.
    BadDns,
    /// Memory ran out.
    OutOfMemory,
}

impl From<AllocError> for NameStop {
    ghost from_gives = { λ _ stop. stop ≡ OutOfMemory };

    fn from(_error: AllocError) -> NameStop {
        NameStop::OutOfMemory
    }
}

impl<T: Drop> From<AllocFailed<T>> for NameStop {
    ghost from_gives = { λ _ stop. stop ≡ OutOfMemory };

    fn from(_error: AllocFailed<T>) -> NameStop {
        NameStop::OutOfMemory
    }
}

impl From<gate_base::OutOfMemory> for NameStop {
    ghost from_gives = { λ _ stop. stop ≡ OutOfMemory };

    fn from(_error: gate_base::OutOfMemory) -> NameStop {
        NameStop::OutOfMemory
    }
}
