// What is true of every table.
ghost use Rattle.std.specs.Prelude.{◌≡◌, ◌≢◌, ◌≤◌, ◌==◌, ◌⊎◌, true, false, ℕ, List, All, IsSome};
ghost use Rattle.gate_base.specs.Prelude.{other};
ghost use Rattle.gate_base.specs.declared.address.Addr.{Addr};
ghost use Rattle.binding_table.specs.Bindings.{Bindings, cross, free, is_settled, seen};
ghost use Rattle.binding_table.specs.Lasting.{IsKnownAs};
ghost use Rattle.binding_table.specs.Lawful.{IsLawful};
ghost use Rattle.binding_table.specs.Plan.{Use, AreUsesOf, after_uses, needed, used};

use crate::binding::Crossing;
use crate::table::Table;
use gate_base::{Addr, Side};

/// No two bindings of hosts of one realm share a host or an alias, each alias lies in the other realm's pool, and each host
/// is one of its own realm.
pub fn keeps_apart(table: &Table)
    ensures { IsLawful table.now }
{
    table.pool(Side::Left);
}

/// Where an address is called another one in the other realm, that one is called the first one in this realm. So no address
/// of a pool stands for two hosts.
pub fn crosses_back(table: &Table, side: Side, address: Addr, image: Addr)
    requires { cross table.now side address ≡ Crossing.Bound image }
    ensures { cross table.now (other side) image ≡ Crossing.Bound address }
{
    keeps_apart(table);
}

/// Once addresses of a realm are used in their order, each is called something in the other realm. None of them may be one of the
/// realm's pool that stands for no host. The other realm's pool must have enough free addresses for those that need a binding.
pub fn sees_used(table: &Table, side: Side, addresses: &[Addr])
    requires bound { All (λ address. cross table.now side address ≢ Crossing.Unbound)
        addresses.now }
    requires room { needed table.now side addresses.now
        ≤ free table.now (other side) }
    ensures { (uses : List Use)
        → AreUsesOf side addresses.now uses
        → All (λ address. IsSome (seen (after_uses table.now uses) side address))
        addresses.now }
{
    keeps_apart(table);
}

/// No use of addresses of either realm changes what a host is called, or shortens the time for which it is bound.
pub fn keeps_known()
    ensures { (table : Bindings) (uses : List Use) (side : Side)
        (host alias until : ℕ)
        → IsKnownAs table side host alias until
        → IsKnownAs (after_uses table uses) side host alias until }
{}

/// The use of an address that is called something already, or of another one, changes nothing of what an address of its realm is
/// called.
pub fn keeps_others()
    ensures { (table : Bindings) (one : Use) (address : Addr)
        → (is_settled (cross table one.side one.address) ≡ true)
        ⊎ ((one.address.0 == address.0) ≡ false)
        → seen (used table one) one.side address ≡ seen table one.side address }
{}
