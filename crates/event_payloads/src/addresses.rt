// The addresses of a datagram: what they are called in the other realm, and what a use of them changes.
ghost use Rattle.std.specs.Prelude.{◌≡◌, None, true};
ghost use Rattle.gate_base.specs.Prelude.{IsMoment, IsTimeout};
ghost use Rattle.verdicts.specs.Prelude.{first_that_holds};
ghost use Rattle.binding_table.specs.Prelude.{cross, seen, is_settled, used, used_by, after_uses};
ghost use Rattle.gate_model.specs.Prelude.{is_reachable, uses_until};
ghost use Rattle.event_payloads.specs.Ways.{IsWay, image_by, is_empty, way_tests, header_uses};

use binding_table::{Crossing, Table};
use gate_base::{Addr, Moment, Side};
use verdicts::Refusal;

/// A datagram's way: the realm from which it comes, the moment, both addresses, and how they cross.
#[derive(Clone, Copy)]
pub struct Way {
    pub side: Side,
    pub moment: Moment,
    pub source: Addr,
    pub destination: Addr,
    pub of_source: Crossing,
    pub of_destination: Crossing,
}

impl Way {
    /// The way between two addresses by a table.
    #[inline(always)]
    pub fn of(table: &Table, side: Side, moment: Moment, source: Addr, destination: Addr) -> Way
        ensures { result
            ≡ record {
              side = side;
              moment = moment;
              source = source;
              destination = destination;
              of_source = cross table.now side source;
              of_destination = cross table.now side destination;
            } }
    {
        Way {
            side,
            moment,
            source,
            destination,
            of_source: table.cross(side, source),
            of_destination: table.cross(side, destination),
        }
    }

    /// What the source is called in the other realm once it was used.
    pub fn source_image(&self) -> Addr
        ensures { result ≡ image_by self.now.of_source self.now.source }
    {
        image_by(self.of_source, self.source)
    }

    /// What the destination is called in the other realm.
    pub fn destination_image(&self) -> Addr
        ensures { result ≡ image_by self.now.of_destination self.now.destination }
    {
        image_by(self.of_destination, self.destination)
    }

    /// Uses both addresses, the source first.
    pub fn use_both(&self, table: &mut Table, timeout: u64)
        requires way { IsWay table.old self.now }
        requires settled { is_settled self.now.of_destination ≡ true }
        requires moment { IsMoment self.now.moment.0 }
        requires timeout { IsTimeout timeout }
        ensures { table.new ≡ after_uses table.old (header_uses self.now timeout) }
    {
        let until = Moment(self.moment.0 + timeout);
        use_by(self.of_source, table, self.side, self.source, until);
        use_by(
            self.of_destination,
            table,
            self.side,
            self.destination,
            until,
        );
    }
}

fn image_by(crossing: Crossing, address: Addr) -> Addr
    ensures { result ≡ image_by crossing address }
{
    match crossing {
        Crossing::Bound(image) => image,
        Crossing::New(image) => image,
        _ => address,
    }
}

#[inline(always)]
fn use_by(crossing: Crossing, table: &mut Table, side: Side, address: Addr, until: Moment)
    requires { crossing ≡ cross table.old side address }
    ensures { table.new
        ≡ used table.old (record { side = side; address = address; until = until }) }
{
    match crossing {
        Crossing::Bound(_) => table.extend(side, address, until),
        Crossing::New(_) => table.bind(side, address, until),
        _ => {}
    }
}

/// Uses an address: a binding that is there lasts at least until a moment, and a new host is bound.
pub fn use_address(table: &mut Table, side: Side, address: Addr, until: Moment)
    ensures { table.new
        ≡ used table.old (record { side = side; address = address; until = until }) }
{
    if table.use_moving(side, address, until) {
        return;
    }
    use_by(table.cross(side, address), table, side, address, until);
}

fn is_seen(crossing: Crossing) -> bool
    ensures { result ≡ is_settled crossing }
{
    matches!(crossing, Crossing::Same | Crossing::Bound(_))
}

fn is_reachable(table: &Table, way: &Way) -> bool
    requires { way.now.of_destination
        ≡ cross table.now way.now.side way.now.destination }
    ensures { result ≡ is_reachable table.now way.now.side way.now.destination }
{
    table.in_same(way.destination)
        || (table.in_pool(way.side, way.destination) && is_seen(way.of_destination))
}

/// Why a datagram is refused for its addresses.
#[inline(always)]
pub fn address_refusal(table: &Table, way: &Way) -> Option<Refusal>
    requires { IsWay table.now way.now }
    ensures { result ≡ first_that_holds (way_tests table.now way.now) }
{
    if table.in_pool(way.side, way.source) {
        Some(Refusal::SourceInPool)
    } else if !is_reachable(table, way) {
        Some(Refusal::NoBinding)
    } else {
        None
    }
}

/// The source needs a binding, and the other realm's pool has no address left.
pub fn lacks_alias(way: &Way) -> bool
    ensures { result ≡ is_empty way.now.of_source }
{
    matches!(way.of_source, Crossing::Empty)
}
