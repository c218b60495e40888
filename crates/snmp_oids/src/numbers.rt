// The first sub-identifiers of an object identifier, read once for many rules.
ghost use Rattle.std.specs.Prelude.{◌≡◌, ◌<◌, ◌≤◌, ◌-◌, ℕ, None, drop, length, slice_index_or, option_and_then, option_map, IfSome, IfNone, IsSome};
ghost use Rattle.snmp_oids.specs.Arcs.{address_of, arcs_of, numbers_of};
ghost use Rattle.snmp_oids.specs.Inside.Arcs.{four_at, numbers_in, small, small_at};

use crate::arcs::{has_arcs, next_number};
use gate_base::Addr;
use oid_rules::Addresses;

// How many are read: an address ends at most 194 sub-identifiers behind the start.
const MOST: usize = 194;

/// The first sub-identifiers of content that has arcs. Each is kept if it is at most 255.
#[derive(Drop)]
pub(crate) struct Numbers {
    small: [Option<u8>; MOST],
}

impl Addresses for Numbers {
    ghost use Rattle.std.specs.Prelude.{◌-◌, None, slice_index_or};
    ghost use Rattle.snmp_oids.specs.Inside.Arcs.{four_at};

    // the first two arcs stand in one sub-identifier
    ghost address_by = { λ numbers place. four_at (λ at. slice_index_or numbers.small at None) (place - 1) };

    fn address(&self, before: usize) -> Option<Addr> {
        let place = before - 1;
        let first = self.small[place]?;
        let second = self.small[place + 1]?;
        let third = self.small[place + 2]?;
        let fourth = self.small[place + 3]?;
        Some(Addr(u32::from_be_bytes([first, second, third, fourth])))
    }
}

impl Numbers {
    /// Those of content, if it has arcs.
    pub(crate) fn of(content: &[u8]) -> Option<Numbers>
        ensures same { IfSome result (λ numbers. (place : ℕ) → 2 ≤ place → place ≤ 191
            → four_at (λ at. slice_index_or numbers.small at None) (place - 1)
            ≡ option_and_then (λ arcs. address_of (drop place arcs)) (arcs_of content.now)) }
        ensures none { IfNone result ((place : ℕ)
            → option_and_then (λ arcs. address_of (drop place arcs)) (arcs_of content.now) ≡ None) }
    {
        if has_arcs(content) {
            Some(Numbers {
                small: small_numbers(content),
            })
        } else {
            None
        }
    }
}

// The first of the sub-identifiers that fill octets, each that is at most 255.
fn small_numbers(octets: &[u8]) -> [Option<u8>; MOST]
    requires { IsSome (numbers_of octets.now) }
    ensures { (place : ℕ) → place < 194
        → slice_index_or result place None ≡ small_at (numbers_in octets.now) place }
{
    let mut kept = [None; MOST];
    let mut rest = octets;
    for place in 0..MOST {
        let Some((number, more)) = next_number(rest) else {
            return kept;
        };
        kept[place] = small(number);
        rest = more;
    }
    kept
}

// A number, if it is at most 255.
fn small(number: u32) -> Option<u8>
    ensures { result ≡ small number }
{
    if number <= 255 {
        Some(number as u8)
    } else {
        None
    }
}
