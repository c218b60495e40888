// Starting slots.
ghost use Rattle.std.specs.Prelude.{◌≡◌, IsTrue, [], ◌∷◌};
ghost use Rattle.run_setup.specs.Causes.{Opens, is_started};

use crate::Status;
use gate_desk::{Access, Desk, Slot};

/// Starts a slot. The error is that it could not be started.
pub fn start_slot<D: Desk>(
    desk: &mut D,
    slot: Slot,
    name: &str,
    access: Access,
) -> Result<(), Status>
    requires { IsTrue (is_started slot) }
    ensures answer { Opens result
        ((record { slot = slot; name = name.now; access = access }) ∷ [])
        (D.outside desk.old) (D.outside desk.new) }
    ensures left { (D.outside desk.new).left ≡ (D.outside desk.old).left }
{
    match desk.start(slot, name, access) {
        Ok(()) => Ok(()),
        Err(_) => Err(Status::OpenFault(slot)),
    }
}
