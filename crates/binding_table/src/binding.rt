ghost use Rattle.std.specs.Prelude.{◌≡◌};
ghost use Rattle.binding_table.specs.Bindings as tables;
ghost use Rattle.binding_table.specs.Inside.Steps.{filed, lasts, number_of};

use expiring_table::Row;
use gate_base::{Addr, Moment, Side};
use gate_settings::Fixed;

/// A host, and the address by which the other realm knows it.
#[derive(Clone, Copy, Debug, PartialEq, Eq)]
pub struct Binding {
    /// The realm of the host.
    pub side: Side,
    /// The host's address in its own realm.
    pub host: Addr,
    /// The address by which the other realm knows the host, in that realm's pool.
    pub alias: Addr,
    /// The moment from which on the binding no longer lives, unless it is fixed.
    pub until: Moment,
    /// Whether the binding never ends.
    pub fixed: bool,
}

impl Binding {
    /// A static binding.
    pub fn of_static(fixed: &Fixed) -> Binding
        ensures { result ≡ tables.fixed_binding fixed.now }
    {
        Binding {
            side: fixed.side,
            host: fixed.host,
            alias: fixed.alias,
            until: Moment(0),
            fixed: true,
        }
    }

    /// Whether the binding lives at least until a moment already.
    pub fn lasts(&self, until: Moment) -> bool
        ensures { result ≡ lasts until self.now }
    {
        self.fixed || until.0 <= self.until.0
    }

    /// The binding, living at least until a moment. A fixed one stays as it is.
    pub fn lasting(self, until: Moment) -> Binding
        ensures { result ≡ tables.lasting until self }
    {
        let mut lasting = self;
        if !self.fixed && self.until.0 < until.0 {
            lasting.until = until;
        }
        lasting
    }

    /// The binding as a row of the table: under the number of its host, with its end, if it has one.
    pub fn filed(self) -> Row<Binding>
        ensures { result ≡ filed self }
    {
        Row {
            key: number_of(self.side, self.host),
            end: if self.fixed { None } else { Some(self.until.0) },
            value: self,
        }
    }
}

/// The number of a host of a realm: no two hosts have the same.
pub fn number_of(side: Side, host: Addr) -> u128
    ensures { result ≡ number_of side host.0 }
{
    let even = 2 * u128::from(host.0);
    match side {
        Side::Left => even,
        Side::Right => even + 1,
    }
}

/// What an address of one realm is called in the other.
#[derive(Clone, Copy, Debug, PartialEq, Eq)]
pub enum Crossing {
    /// The address itself: it is no host's, or it means the same host in both realms.
    Same,
    /// This address, by a binding of the table.
    Bound(Addr),
    /// This address, once the host is bound.
    New(Addr),
    /// Nothing: the address is one of the realm's pool, and stands for no host.
    Unbound,
    /// Nothing: the host has no binding, and the other realm's pool has no free address.
    Empty,
}
