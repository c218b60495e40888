// A place of a chain.
ghost use Rattle.std.specs.Prelude.{◌≡◌, ◌<◌, ◌-◌, ◌^◌, None, Some};

use std::marker::Model;

/// A place, or none, in 32 bits.
#[derive(Clone, Copy)]
pub(crate) struct PlaceOrNone(u32);

impl Model for PlaceOrNone {
    ghost use Rattle.std.specs.Prelude.{ℕ, Option, ◌==◌, ◌-◌, ◌^◌, if◌then◌else◌, None, Some};
    ghost use Rattle.std.specs.Option.{unwrap_or};
    ghost use Rattle.std.proofs.Common.{rules};

    ghost Value = { Option ℕ };

    // the number of no place is the greatest
    ghost view = { λ link. if link.0 == 2 ^ 32 - 1 then None else Some link.0 };

    ghost inverse = { λ place. record { 0 = unwrap_or place (2 ^ 32 - 1) } };

    ghost inverse_ok = { λ link _. Prim.grind (rules) };
}

impl PlaceOrNone {
    /// The link to no place.
    pub(crate) fn none() -> PlaceOrNone
        ensures { result ≡ None }
    {
        PlaceOrNone(u32::MAX)
    }

    /// The link to a place.
    pub(crate) fn to(place: usize) -> PlaceOrNone
        requires { place < 2 ^ 32 - 1 }
        ensures { result ≡ Some place }
    {
        PlaceOrNone(place as u32)
    }

    /// The place, if there is one.
    pub(crate) fn place(self) -> Option<usize>
        ensures { result ≡ self }
    {
        if self.0 == u32::MAX {
            return None;
        }
        Some(self.0 as usize)
    }
}
