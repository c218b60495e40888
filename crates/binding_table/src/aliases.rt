// A pool, and the hosts for which its addresses stand.
ghost use Rattle.std.specs.Prelude.{◌≡◌, true, false, Some, None, slice_index_or, length, IfOk, IsTrue};
ghost use Rattle.gate_settings.specs.Prelude.{is_bad_pool};
ghost use Rattle.realm_pools.specs.Addresses.{is_free, is_taken, is_in, place_of};
ghost use Rattle.binding_table.specs.Inside.Steps as steps;

use gate_base::{Addr, OutOfMemory};
use gate_settings::SideSettings;
use realm_pools::Pool;
use std::alloc::Global;
use std::marker::Model;

/// A realm's pool, and for each of its addresses the host of the other realm for which it stands.
pub struct Aliases {
    pool: Pool,
    // the first address of the pool
    first: u32,
    // the hosts of the addresses, in order
    hosts: Vec<Option<Addr>>,
}

// By a call of its own, since a drop that is written out wherever it happens is slow to prove.
impl Drop for Aliases {
    fn drop(self) {
        let Self { pool, first, hosts } = self;
    }
}

impl Model for Aliases {
    ghost use Rattle.binding_table.specs.Inside.Steps.{Aliases};

    ghost Value = { Aliases };

    ghost use Rattle.binding_table.specs.Inside.Aliases.{aliases_in, AreWhole};

    ghost view = { aliases_in };

    ghost invariant = { AreWhole };
}

impl Aliases {
    /// The pool of a realm, none of whose addresses stands for a host. The error is that there is too little memory.
    pub fn new(alloc: Global, side: &SideSettings) -> Result<Aliases, OutOfMemory>
        requires { is_bad_pool side.now ≡ false }
        ensures { IfOk result
            (λ aliases. aliases ≡ steps.no_hosts side.now.first side.now.last) }
    {
        let size = (side.last.0 - side.first.0) as usize + 1;
        Ok(Aliases {
            pool: Pool::new(alloc, side.first, side.last)?,
            first: side.first.0,
            hosts: vec![in alloc; None; size]?,
        })
    }

    /// The pool.
    pub fn pool(&self) -> &Pool
        ensures { result.now ≡ self.now.pool }
    {
        &self.pool
    }

    /// The number of addresses.
    pub fn len(&self) -> usize
        ensures { result ≡ length self.now.hosts }
    {
        self.hosts.len()
    }

    /// The host for which an address of the pool stands.
    pub fn host(&self, alias: Addr) -> Option<Addr>
        requires { is_in alias self.now.pool.range ≡ true }
        ensures { result
            ≡ slice_index_or self.now.hosts (place_of alias self.now.pool) None }
    {
        address_at(&self.hosts, (alias.0 - self.first) as usize)
    }

    /// Lets a free address stand for a host.
    pub fn allocate(&mut self, alias: Addr, host: Addr)
        requires { IsTrue (is_free alias self.old.pool) }
        ensures { self.new ≡ steps.with_host alias (Some host) self.old }
    {
        self.pool.allocate(alias);
        self.hosts[(alias.0 - self.first) as usize] = Some(host);
    }

    /// Makes a taken address free. It stands for no host then.
    pub fn give_back(&mut self, alias: Addr)
        requires { IsTrue (is_taken alias self.old.pool) }
        ensures { self.new ≡ steps.with_host alias None self.old }
    {
        self.pool.give_back(alias);
        self.hosts[(alias.0 - self.first) as usize] = None;
    }
}

/// The address at a place, if there is one.
pub fn address_at(addresses: &[Option<Addr>], place: usize) -> Option<Addr>
    ensures { result ≡ slice_index_or addresses.now place None }
{
    match addresses.get(place) {
        Some(address) => *address,
        None => None,
    }
}
