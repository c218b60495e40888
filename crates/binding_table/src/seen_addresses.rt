// Where addresses stand first.
ghost use Rattle.std.specs.Prelude.{◌≡◌, ◌++◌, ◌∷◌, [], true, All, Bool, Some, IfOk, length, position};
ghost use Rattle.expiring_table.specs.Prelude.{no_rows};
ghost use Rattle.gate_base.specs.declared.address.Addr.{Addr};
ghost use Rattle.binding_table.specs.Plan.{is_address};
ghost use Rattle.binding_table.specs.Inside.Steps.{AreFirsts, EndsAtOnce};

use expiring_table::{Row, Rows, Seed};
use gate_base::{Addr, OutOfMemory};
use std::alloc::Global;
use std::marker::Model;

/// How many distinct addresses are noted: more than a datagram names.
pub const MOST_SEEN: usize = 8_192;

/// Room in which `Table::plan` notes where the addresses of a list stand first. So each costs the same however many come before
/// it, as long as no more than `MOST_SEEN` distinct ones need a binding. Each plan leaves the room empty.
#[derive(Drop)]
pub struct SeenAddresses {
    pub(crate) rows: Rows<usize>,
}

impl Model for SeenAddresses {
    ghost use Rattle.std.specs.Prelude.{◌≡◌};
    ghost use Rattle.expiring_table.specs.Prelude.{no_rows};
    ghost use Rattle.binding_table.specs.declared.seen_addresses.TheConstants.{MOST_SEEN};

    ghost Value = { Unit {0} };

    ghost view = { λ _. tt };

    ghost invariant = { λ seen_addresses. seen_addresses.rows ≡ no_rows MOST_SEEN };
}

impl SeenAddresses {
    /// The room. The error is that there is too little memory. The seed spreads the addresses, and changes no answer.
    pub fn new(alloc: Global, seed: Seed) -> Result<SeenAddresses, OutOfMemory> {
        Ok(SeenAddresses {
            rows: Rows::new(alloc, MOST_SEEN, seed)?,
        })
    }

    /// Spreads the addresses by another seed.
    pub fn reseed(&mut self, seed: Seed) {
        self.rows.reseed(seed);
    }
}

/// The place at which an address that needs a binding stands first among earlier ones, and None where it is the first, which is then
/// noted.
pub fn first_place(
    seen_addresses: &mut Rows<usize>,
    earlier: &[Addr],
    address: Addr,
) -> Option<usize>
    requires { seen_addresses.old.most ≡ MOST_SEEN }
    ensures place { (needs : Addr → Bool)
        → AreFirsts needs earlier.now seen_addresses.old
        → needs address ≡ true
        → result ≡ position (is_address address) earlier.now }
    ensures seen_addresses { (needs : Addr → Bool)
        → AreFirsts needs earlier.now seen_addresses.old
        → needs address ≡ true
        → AreFirsts needs (earlier.now ++ address ∷ []) seen_addresses.new }
{
    let key = u128::from(address.0);
    match seen_addresses.find(key).copied() {
        Some(row) => Some(row.value),
        None => {
            if MOST_SEEN <= seen_addresses.len() {
                return place_of(earlier, address);
            }
            seen_addresses.push(Row {
                key,
                end: Some(0),
                value: earlier.len(),
            });
            None
        }
    }
}

fn place_of(addresses: &[Addr], address: Addr) -> Option<usize>
    ensures { result ≡ position (is_address address) addresses.now }
{
    addresses.iter().position(|one| one.0 == address.0)
}

/// Takes out all that was noted.
pub fn forget(seen_addresses: &mut Rows<usize>)
    requires { All EndsAtOnce seen_addresses.old.rows }
    ensures { seen_addresses.new ≡ no_rows seen_addresses.old.most }
{
    while let Some(_) = seen_addresses.next_ended(0) {}
}
