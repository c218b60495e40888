// Why a writer stops.
ghost use Rattle.std.specs.Prelude.{◌≡◌};
ghost use Rattle.dns_messages.specs.declared.stop.WriteStop.TheVariants as stop;

use gate_base::OutOfMemory;

/// Why a message can't be written.
#[derive(Clone, Copy, Debug, PartialEq, Eq)]
pub enum WriteStop {
    /// It, or the data of one record in it, has more than 65,535 octets.
    TooLong,
    /// Memory ran out.
    OutOfMemory,
}

impl From<OutOfMemory> for WriteStop {
    ghost from_gives = { λ _ why. why ≡ stop.OutOfMemory };

    fn from(_error: OutOfMemory) -> WriteStop {
        WriteStop::OutOfMemory
    }
}
