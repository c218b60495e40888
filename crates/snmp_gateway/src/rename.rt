// The renaming of addresses in place.
ghost use Rattle.std.specs.Prelude.{◌≡◌, ◌+◌, ◌≤◌, ℕ, Option, option_map, length, IsSome};
ghost use Rattle.snmp_gateway.specs.Message.{message, places_of};
ghost use Rattle.snmp_gateway.specs.Renaming.{renamed, renamed_at};

use crate::outline::outline_of;
use gate_base::{Addr, get_u32, put_u32};

/// What knows the images of addresses. Clauses cite it as `image_of`, by the numbers of the addresses.
pub trait Lookup {
    ghost image_of: { Self → ℕ → Option ℕ };

    /// The address that is to stand in the place of an address, or None where that one is kept.
    fn image(&self, address: Addr) -> Option<Addr>
        ensures { option_map (λ a. a.0) result ≡ image_of self.now address.0 };
}

/// Puts the image of each address of a message in its place, where it has one, and changes nothing else (RFC 2962). The
/// message is read once. The result is a message of the same kind with its addresses at the same places.
pub fn rename_in_place<L: Lookup>(octets: &mut [u8], lookup: &L)
    requires { IsSome (message octets.old) }
    ensures renamed { octets.new
        ≡ renamed (L.image_of lookup.now) (places_of octets.old) octets.old }
    ensures same { message octets.new ≡ message octets.old }
{
    let Some(mut ahead) = outline_of(octets) else {
        return;
    };
    while let Some(place) = ahead.next_place(octets) {
        rename(octets, place, lookup);
    }
}

// Puts the image of the address at a place in its stead, if it has one.
fn rename<L: Lookup>(octets: &mut [u8], place: usize, lookup: &L)
    requires { place + 4 ≤ length octets.old }
    ensures { octets.new ≡ renamed_at (L.image_of lookup.now) place octets.old }
{
    if let Some(new) = lookup.image(Addr(get_u32(octets, place))) {
        put_u32(octets, place, new.0);
    }
}
