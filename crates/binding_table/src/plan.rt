// What addresses will be called once they are used.
ghost use Rattle.std.specs.Prelude.{◌≡◌, ◌≢◌, ◌≤◌, ◌++◌, ◌∷◌, [], List, length, All, not, nat_lt, true};
ghost use Rattle.expiring_table.specs.Prelude.{no_rows};
ghost use Rattle.gate_base.specs.Prelude.{other};
ghost use Rattle.binding_table.specs.Bindings as tables;
ghost use Rattle.binding_table.specs.Plan as plans;
ghost use Rattle.binding_table.specs.Inside.Steps.{AreFirsts, EndsAtOnce, needing, next_alias, planned_by};
ghost use Rattle.binding_table.specs.declared.seen_addresses.TheConstants.{MOST_SEEN};

use crate::aliases::address_at;
use crate::binding::Crossing;
use crate::laws::keeps_apart;
use crate::seen_addresses::{SeenAddresses, first_place, forget};
use crate::table::Table;
use expiring_table::Rows;
use gate_base::{Addr, Side};
use realm_pools::Pool;

/// What an address will be called, the alias that was given last then, and whether it needs a binding and stands there first.
#[derive(Clone, Copy)]
struct Planned {
    image: Option<Addr>,
    given: Option<Addr>,
    fresh: bool,
}

impl Table {
    /// Writes at each place what the address will be called once all of them are used in their order, and None where it crosses
    /// unchanged. A use extends a known binding, and binds a new host. Answers whether the other realm's pool has an address for
    /// each distinct one that needs a binding. Where it hasn't, the images mean nothing.
    pub fn plan(
        &self,
        side: Side,
        addresses: &[Addr],
        images: &mut [Option<Addr>],
        seen_addresses: &mut SeenAddresses,
    ) -> bool
        requires lengths { length images.old ≡ length addresses.now }
        requires bound { All
            (λ address. tables.cross self.now side address ≢ Crossing.Unbound)
            addresses.now }
        ensures room { result
            ≡ not (nat_lt (tables.free self.now (other side))
            (plans.needed self.now side addresses.now)) }
        ensures images { result ≡ true
            → (uses : List plans.Use)
            → plans.AreUsesOf side addresses.now uses
            → images.new ≡ plans.images_after self.now uses }
    {
        let needed = self.write_images(side, addresses, images, &mut seen_addresses.rows);
        forget(&mut seen_addresses.rows);
        needed <= self.free(side.other())
    }

    // Writes the images, and counts the addresses that need a binding, each once.
    fn write_images(
        &self,
        side: Side,
        addresses: &[Addr],
        images: &mut [Option<Addr>],
        seen_addresses: &mut Rows<usize>,
    ) -> u32
        requires empty { seen_addresses.old ≡ no_rows MOST_SEEN }
        requires lengths { length images.old ≡ length addresses.now }
        requires bound { All
            (λ address. tables.cross self.now side address ≢ Crossing.Unbound)
            addresses.now }
        ensures count { result ≡ plans.needed self.now side addresses.now }
        ensures images { plans.needed self.now side addresses.now
            ≤ tables.free self.now (other side)
            → (uses : List plans.Use)
            → plans.AreUsesOf side addresses.now uses
            → images.new ≡ plans.images_after self.now uses }
        ensures most { seen_addresses.new.most ≡ MOST_SEEN }
        ensures ends { All EndsAtOnce seen_addresses.new.rows }
    {
        keeps_apart(self);
        let mut given = None;
        let mut count = 0;
        for (place, address) in addresses.iter().enumerate() {
            let planned = self.image(
                side,
                &addresses[..place],
                images,
                given,
                *address,
                seen_addresses,
            );
            images[place] = planned.image;
            given = planned.given;
            count += u32::from(planned.fresh);
        }
        count
    }

    // The image of an address behind earlier ones and their images.
    fn image(
        &self,
        side: Side,
        earlier: &[Addr],
        images: &[Option<Addr>],
        given: Option<Addr>,
        address: Addr,
        seen_addresses: &mut Rows<usize>,
    ) -> Planned
        requires lengths { length earlier.now ≤ length images.now }
        requires bound { tables.cross self.now side address ≢ Crossing.Unbound }
        requires seen_addresses { AreFirsts (needing self.now side) earlier.now
            seen_addresses.old }
        ensures value { (result.image, result.given)
            ≡ planned_by (tables.pool_of self.now (other side)) earlier.now images.now
            given address (tables.cross self.now side address) }
        ensures fresh { result.fresh
            ≡ plans.is_fresh self.now side earlier.now address }
        ensures seen_addresses { AreFirsts (needing self.now side)
            (earlier.now ++ address ∷ []) seen_addresses.new }
    {
        match self.cross(side, address) {
            Crossing::Same => Planned {
                image: None,
                given,
                fresh: false,
            },
            Crossing::Bound(image) => Planned {
                image: Some(image),
                given,
                fresh: false,
            },
            _ => match first_place(seen_addresses, earlier, address) {
                Some(place) => Planned {
                    image: address_at(images, place),
                    given,
                    fresh: false,
                },
                None => {
                    let alias = next_alias(self.pool(side.other()), given);
                    Planned {
                        image: alias,
                        given: alias,
                        fresh: true,
                    }
                }
            },
        }
    }
}

fn next_alias(pool: &Pool, given: Option<Addr>) -> Option<Addr>
    ensures { result ≡ next_alias pool.now given }
{
    match given {
        Some(given) => pool.next_free(given),
        None => pool.least_free(),
    }
}
