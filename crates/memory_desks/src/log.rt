// The starts of a desk in memory.
ghost use Rattle.std.specs.Prelude.{◌≡◌, ◌+◌, ◌≤◌, ◌++◌, [], ◌∷◌, length, IfOk};
ghost use Rattle.gate_desk.specs.Outside.{names_size};

use gate_desk::{Access, Slot};
use std::alloc::{AllocError, Global};
use std::marker::Model;

#[derive(Clone, Copy)]
struct Entry {
    slot: Slot,
    access: Access,
    len: usize,
}

#[derive(Drop)]
pub struct StartLog {
    entries: Vec<Entry>,
    names: Vec<u8>,
}

impl Model for StartLog {
    ghost use Rattle.std.specs.Prelude.{List};
    ghost use Rattle.gate_desk.specs.Outside.{Start};

    ghost Value = { List Start };

    ghost use Rattle.memory_desks.specs.Inside.Log.{log_view, LogFits};

    ghost view = { log_view };

    ghost invariant = { LogFits };
}

impl StartLog {
    pub fn new(alloc: Global) -> Result<Self, AllocError>
        ensures { IfOk result (λ log. log ≡ []) }
    {
        Ok(StartLog {
            entries: Vec::with_capacity(alloc, 65536)?,
            names: Vec::with_capacity(alloc, 65536)?,
        })
    }

    pub fn size(&self) -> usize
        ensures is { result ≡ names_size self.now }
        ensures small { result ≤ 65536 }
    {
        self.names.len() + 3 * self.entries.len()
    }

    pub fn push(&mut self, slot: Slot, name: &[u8], access: Access)
        requires { names_size self.old + length name.now + 3 ≤ 65536 }
        ensures { self.new
            ≡ self.old ++ (record { slot = slot; name = name.now; access = access })
            ∷ [] }
    {
        let entry = Entry {
            slot,
            access,
            len: name.len(),
        };
        if self.entries.push(entry).is_err() {
            unreachable!();
        }
        if self.names.extend_from_slice(name).is_err() {
            unreachable!();
        }
    }
}
