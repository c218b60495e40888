// The table of bindings.
ghost use Rattle.std.specs.Prelude.{◌≡◌, true, false, Some, None, map, option_map, option_and_then, length, All, IfOk, IsTrue, OnOk};
ghost use Rattle.std.specs.Bool.{OnTrue, OnFalse};
ghost use Rattle.std.specs.List.{find, filter};
ghost use Rattle.binding_table.specs.Inside.Steps.{aliases_of, aliases_with, changed, entries_in, extended_by, filed, moving_row, unless_fixed, AreKept, CanHold};
ghost use Rattle.binding_table.specs.Bindings as tables;
ghost use Rattle.binding_table.specs.Lawful.{IsLawful};
ghost use Rattle.binding_table.specs.Plan.{used};
ghost use Rattle.gate_base.specs.Prelude.{AreRules};
ghost use Rattle.gate_settings.specs.Prelude.{is_in_same, IsSound, HasForms};
ghost use Rattle.realm_pools.specs.Addresses.{is_free, is_taken};

use crate::aliases::Aliases;
use crate::binding::{Binding, Crossing, number_of};
use crate::entries::Entries;
use expiring_table::{Row, Seed};
use gate_base::{Addr, Moment, OutOfMemory, Side, is_unicast};
use gate_settings::{SameRanges, Settings};
use oid_rules::SortedRules;
use realm_pools::Pool;
use std::alloc::Global;
use std::marker::Model;

/// The bindings between the hosts of two realms. A call after `new` takes no memory. But for `reseed`, and for a tidying of the rows
/// once in very many changes, none looks at all bindings.
pub struct Table {
    same: SameRanges,
    left: Aliases,
    right: Aliases,
    bindings: Entries,
    oids: SortedRules,
}

// By a call of its own, since a drop that is written out wherever it happens is slow to prove.
impl Drop for Table {
    fn drop(self) {
        let Self {
            same,
            left,
            right,
            bindings,
            oids,
        } = self;
    }
}

impl Model for Table {
    ghost use Rattle.binding_table.specs.Bindings.{Bindings};

    ghost Value = { Bindings };

    ghost use Rattle.binding_table.specs.Inside.Whole.{bindings_of, IsWhole};

    ghost view = { bindings_of };

    ghost invariant = { IsWhole };
}

impl Table {
    /// The table of the static bindings in their order, for settings as `read_settings` gives them. It takes all the memory that the
    /// table ever needs; the error is that there is too little. The seed spreads the hosts, and changes no answer.
    pub fn new(alloc: Global, settings: &Settings, seed: Seed) -> Result<Table, OutOfMemory>
        requires sound { IsSound settings.now }
        requires forms { HasForms settings.now }
        ensures { IfOk result (λ table. table ≡ tables.opening settings.now) }
    {
        let mut table = Table::without_bindings(alloc, settings, seed)?;
        for fixed in settings.statics.items() {
            table.fix(Binding::of_static(fixed))?;
        }
        Ok(table)
    }

    fn without_bindings(
        alloc: Global,
        settings: &Settings,
        seed: Seed,
    ) -> Result<Table, OutOfMemory>
        requires sound { IsSound settings.now }
        requires forms { HasForms settings.now }
        ensures { IfOk result
            (λ table. table ≡ tables.without_bindings settings.now) }
    {
        let left = Aliases::new(alloc, &settings.left)?;
        let right = Aliases::new(alloc, &settings.right)?;
        let same = SameRanges::of(alloc, settings.same.items())?;
        let room = left.len() + right.len();
        Ok(Table {
            same,
            left,
            right,
            bindings: Entries::new(alloc, settings.statics.items().len(), room, seed)?,
            oids: SortedRules::of(alloc, settings.oids.items())?,
        })
    }

    /// Where object identifiers hold addresses.
    pub fn oids(&self) -> &SortedRules
        ensures value { result.now ≡ self.now.oids }
        ensures rules { AreRules result.now }
    {
        &self.oids
    }

    /// Spreads the hosts by another seed.
    pub fn reseed(&mut self, seed: Seed)
        ensures { self.new ≡ self.old }
    {
        self.bindings.reseed(seed);
    }

    /// What an address, as it is written in one realm, is called in the other.
    #[inline(always)]
    #[tactic(auto, unfolding(crate::specs::Bindings::cross))]
    pub fn cross(&self, side: Side, address: Addr) -> Crossing
        ensures { result ≡ tables.cross self.now side address }
    {
        if !is_unicast(address) || self.in_same(address) {
            return Crossing::Same;
        }
        if self.in_pool(side, address) {
            return self.pool_crossing(side, address);
        }
        self.host_crossing(side, address)
    }

    fn pool_crossing(&self, side: Side, address: Addr) -> Crossing
        requires { tables.in_pool self.now side address ≡ true }
        ensures { result ≡ tables.pool_crossing self.now side address }
    {
        match self.host_of(side, address) {
            Some(host) => Crossing::Bound(host),
            None => Crossing::Unbound,
        }
    }

    #[inline(always)]
    fn host_crossing(&self, side: Side, address: Addr) -> Crossing
        ensures { result ≡ tables.host_crossing self.now side address }
    {
        match self.binding_of(side, address) {
            Some(binding) => Crossing::Bound(binding.alias),
            None => match self.pool(side.other()).least_free() {
                Some(alias) => Crossing::New(alias),
                None => Crossing::Empty,
            },
        }
    }

    // The host for which an address of the realm's pool stands.
    fn host_of(&self, side: Side, alias: Addr) -> Option<Addr>
        requires { tables.in_pool self.now side alias ≡ true }
        ensures { result ≡ tables.host_of side alias self.now.entries }
    {
        self.aliases(side).host(alias)
    }

    // The binding of a host of the realm.
    #[inline(always)]
    fn binding_of(&self, side: Side, host: Addr) -> Option<&Binding>
        ensures { option_map (λ found. found.now) result
            ≡ find (tables.is_of_host side host.0) self.now.entries }
    {
        self.bindings.find(number_of(side, host))
    }

    // The number of a host of the realm whose binding isn't fixed, and where its row is kept.
    #[inline(always)]
    fn moving_of(&self, side: Side, host: Addr) -> Option<(usize, u128)>
        ensures { option_and_then (λ found. moving_row found.1 self.now.entries)
            result
            ≡ option_map filed (option_and_then unless_fixed
            (find (tables.is_of_host side host.0) self.now.entries)) }
    {
        let number = number_of(side, host);
        match self.bindings.locate(number) {
            Some((place, _)) => Some((place, number)),
            None => None,
        }
    }

    // The number of the host through whose binding an address of the realm crosses unless that is fixed, and where its row is kept.
    #[inline(always)]
    fn moving_through(&self, side: Side, address: Addr) -> Option<(usize, u128)>
        ensures value { option_and_then (λ found. moving_row found.1 self.now.entries)
            result
            ≡ option_map filed (option_and_then unless_fixed (find
            (tables.is_through (tables.in_pool self.now side address) side
            address) self.now.entries)) }
        ensures lawful { IsLawful self.now }
    {
        if self.pool(side).contains(address) {
            let host = self.host_of(side, address)?;
            self.moving_of(side.other(), host)
        } else {
            self.moving_of(side, address)
        }
    }

    /// What an address of one realm is called in the other by the bindings that are there, and None where there is none.
    pub fn seen(&self, side: Side, address: Addr) -> Option<Addr>
        ensures { result ≡ tables.seen self.now side address }
    {
        match self.cross(side, address) {
            Crossing::Same => Some(address),
            Crossing::Bound(image) => Some(image),
            _ => None,
        }
    }

    /// Whether the address lies in the realm's pool.
    pub fn in_pool(&self, side: Side, address: Addr) -> bool
        ensures { result ≡ tables.in_pool self.now side address }
    {
        self.pool(side).contains(address)
    }

    /// Whether the address lies in a block whose addresses mean the same host in both realms.
    pub fn in_same(&self, address: Addr) -> bool
        ensures { result ≡ is_in_same address self.now.same }
    {
        self.same.contains(address)
    }

    /// The number of free addresses of the realm's pool.
    pub fn free(&self, side: Side) -> u32
        ensures { result ≡ tables.free self.now side }
    {
        self.pool(side).free()
    }

    /// The number of bindings.
    pub fn len(&self) -> usize
        ensures { result ≡ length self.now.entries }
    {
        self.bindings.len()
    }

    /// Binds a new host to the address that it crosses to, behind the other bindings.
    pub fn bind(&mut self, side: Side, host: Addr, until: Moment)
        requires { tables.IsNew (tables.cross self.old side host) }
        ensures { self.new ≡ tables.bound self.old side host until }
    {
        if let Some(alias) = self.pool(side.other()).least_free() {
            self.append(Binding {
                side,
                host,
                alias,
                until,
                fixed: false,
            });
        }
    }

    // Puts a fixed binding behind the others, which all are fixed. The error is that there is too little memory.
    fn fix(&mut self, binding: Binding) -> Result<(), OutOfMemory>
        requires place { CanHold self.old binding }
        requires early { All (λ one. one.fixed ≡ true) self.old.entries }
        requires fixed { binding.fixed ≡ true }
        ensures { OnOk result (self.new ≡ tables.with_binding self.old binding) }
    {
        self.bindings.fix(binding)?;
        allocate_alias(&mut self.left, &mut self.right, &binding);
        Ok(())
    }

    // Puts a binding that isn't fixed behind the others.
    fn append(&mut self, binding: Binding)
        requires place { CanHold self.old binding }
        requires moving { binding.fixed ≡ false }
        ensures { self.new ≡ tables.with_binding self.old binding }
    {
        allocate_alias(&mut self.left, &mut self.right, &binding);
        self.bindings.push(binding.filed());
    }

    /// Lets the binding through which an address crosses live at least until a moment. A fixed one stays as it is.
    #[inline(always)]
    pub fn extend(&mut self, side: Side, address: Addr, until: Moment)
        requires { tables.IsKnown (tables.cross self.old side address) }
        ensures { self.new ≡ tables.extended self.old side address until }
    {
        if let Some((place, number)) = self.moving_through(side, address) {
            self.extend_numbered(place, number, until);
        }
    }

    /// Uses a host of the realm that has a binding which isn't fixed: this lasts at least until a moment. False says that there is none.
    #[inline(always)]
    pub fn use_moving(&mut self, side: Side, host: Addr, until: Moment) -> bool
        ensures used { OnTrue result (self.new
            ≡ used self.old (record { side = side; address = host; until = until })) }
        ensures kept { OnFalse result (self.new ≡ self.old) }
    {
        let number = number_of(side, host);
        match self.bindings.locate(number) {
            Some((place, row)) => {
                self.extend_row(place, row, until);
                true
            }
            None => false,
        }
    }

    // Lets the binding with a number live at least until a moment, unless it is fixed. Its row is looked for at a place first.
    #[inline(never)]
    fn extend_numbered(&mut self, near: usize, number: u128, until: Moment)
        requires { IsLawful self.old }
        ensures { self.new
            ≡ record self.old {
              entries = extended_by (moving_row number self.old.entries) until
                  self.old.entries;
            } }
    {
        let at_once = self.bindings.row_at(near, number);
        if let Some(row) = at_once {
            self.extend_row(near, row, until);
            return;
        }
        let located = self.bindings.locate(number);
        if let Some((place, row)) = located {
            self.extend_row(place, row, until);
        }
    }

    // Lets a binding that isn't fixed, whose row is near a place, live at least until a moment.
    #[inline(always)]
    fn extend_row(&mut self, near: usize, row: Row<Binding>, until: Moment)
        requires lawful { IsLawful self.old }
        requires there { find (tables.is_of_host row.value.side row.value.host.0)
            self.old.entries ≡ Some row.value }
        requires filed { row ≡ filed row.value }
        requires moving { row.value.fixed ≡ false }
        ensures { self.new
            ≡ record self.old {
              entries = extended_by (Some row) until self.old.entries;
            } }
    {
        if row.value.lasts(until) {
            return;
        }
        // with the key as it stands there, so that it isn't compared and written anew
        let later = Row {
            key: row.key,
            ..row.value.lasting(until).filed()
        };
        self.bindings.set_at(near, later);
    }

    /// Drops the bindings that don't live, and makes their aliases free, without a walk over the others.
    #[inline(always)]
    pub fn expire(&mut self, now: Moment)
        ensures { self.new ≡ tables.expired self.old now }
    {
        drop_ended(&mut self.bindings, &mut self.left, &mut self.right, now);
    }

    pub(crate) fn pool(&self, side: Side) -> &Pool
        ensures value { result.now ≡ tables.pool_of self.now side }
        ensures lawful { IsLawful self.now }
    {
        self.aliases(side).pool()
    }

    fn aliases(&self, side: Side) -> &Aliases
        ensures value { result.now ≡ aliases_of self.now side }
        ensures lawful { IsLawful self.now }
    {
        match side {
            Side::Left => &self.left,
            Side::Right => &self.right,
        }
    }
}

fn allocate_alias(left: &mut Aliases, right: &mut Aliases, binding: &Binding)
    requires left { binding.now.side ≡ Side.Right
        → IsTrue (is_free binding.now.alias left.old.pool) }
    requires right { binding.now.side ≡ Side.Left
        → IsTrue (is_free binding.now.alias right.old.pool) }
    ensures left { left.new
        ≡ changed Side.Left binding.now (Some binding.now.host) left.old }
    ensures right { right.new
        ≡ changed Side.Right binding.now (Some binding.now.host) right.old }
{
    match binding.side {
        Side::Left => right.allocate(binding.alias, binding.host),
        Side::Right => left.allocate(binding.alias, binding.host),
    }
}

fn give_back_alias(left: &mut Aliases, right: &mut Aliases, binding: &Binding)
    requires left { binding.now.side ≡ Side.Right
        → IsTrue (is_taken binding.now.alias left.old.pool) }
    requires right { binding.now.side ≡ Side.Left
        → IsTrue (is_taken binding.now.alias right.old.pool) }
    ensures left { left.new ≡ changed Side.Left binding.now None left.old }
    ensures right { right.new ≡ changed Side.Right binding.now None right.old }
{
    match binding.side {
        Side::Left => right.give_back(binding.alias),
        Side::Right => left.give_back(binding.alias),
    }
}

// Takes out the bindings that don't live, and makes their aliases free.
#[inline(always)]
fn drop_ended(bindings: &mut Entries, left: &mut Aliases, right: &mut Aliases, now: Moment)
    requires { AreKept left.old right.old bindings.old.rows }
    ensures rows { bindings.new
        ≡ record bindings.old {
          rows = map filed
              (filter (tables.is_live now) (entries_in bindings.old.rows));
        } }
    ensures left { left.new
        ≡ aliases_with left.old.pool.range Side.Left
        (filter (tables.is_live now) (entries_in bindings.old.rows)) }
    ensures right { right.new
        ≡ aliases_with right.old.pool.range Side.Right
        (filter (tables.is_live now) (entries_in bindings.old.rows)) }
{
    while let Some(row) = bindings.next_ended(now.0) {
        give_back_alias(left, right, &row.value);
    }
}
