// The name of a connection.
ghost use Rattle.std.specs.Prelude.{◌≡◌};
ghost use Rattle.gate_model.specs.Prelude.{key_of};

use gate_base::{Addr, Side};
use tcp_tracker::ConnKey;

/// The name of a connection of a host of the realm to one of the other, by the hosts' own addresses.
pub fn key_of(side: Side, own: Addr, own_port: u16, far: Addr, far_port: u16) -> ConnKey
    ensures { result ≡ key_of side own own_port far far_port }
{
    match side {
        Side::Left => ConnKey {
            left: own,
            left_port: own_port,
            right: far,
            right_port: far_port,
        },
        Side::Right => ConnKey {
            left: far,
            left_port: far_port,
            right: own,
            right_port: own_port,
        },
    }
}
