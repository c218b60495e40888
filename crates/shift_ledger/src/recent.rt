// The octets of a stream that may be sent again.
ghost use Rattle.std.specs.Prelude.{◌≡◌, ◌≤◌, ◌+◌, ◌-◌, [], ◌++◌, length, take, drop, IfOk, vec_capacity};
ghost use Rattle.dialogue.specs.Prelude.{is_unlike, differ};

use dialogue::MOST_RECENT;
use gate_base::OutOfMemory;
use std::alloc::Global;
use std::marker::Model;

/// The room for them: a quarter more, so that they are moved once for each 16,384 that are forgotten.
const ROOM: usize = MOST_RECENT + MOST_RECENT / 4;

/// The last octets of a stream, at most 65,536 of them. They are seen as the list of them.
#[derive(Drop)]
pub struct Recent {
    octets: Vec<u8>,
    // how many at the front are forgotten already
    forgotten: usize,
}

impl Model for Recent {
    ghost use Rattle.std.specs.Prelude.{ℕ, List, drop, length, vec_capacity};
    ghost use Rattle.shift_ledger.specs.Inside.Room.{HasRoom};

    ghost Value = { List ℕ };

    ghost view = { λ r. drop r.forgotten r.octets.items };

    ghost invariant = { λ r. HasRoom (length r.octets.items) r.forgotten (vec_capacity r.octets) };
}

impl Recent {
    /// No octet, with the room for all that are ever kept.
    pub fn new(alloc: Global) -> Result<Recent, OutOfMemory>
        ensures { IfOk result (λ r. r ≡ []) }
    {
        Ok(Recent {
            octets: Vec::with_capacity(alloc, ROOM)?,
            forgotten: 0,
        })
    }

    /// The octets.
    pub fn octets(&self) -> &[u8]
        ensures octets { result.now ≡ self.now }
        ensures few { length result.now ≤ MOST_RECENT }
    {
        &self.octets[self.forgotten..]
    }

    /// Appends octets, for which there has to be room. It takes no memory.
    pub fn push(&mut self, octets: &[u8])
        requires { length self.old + length octets.now ≤ MOST_RECENT }
        ensures { self.new ≡ self.old ++ octets.now }
    {
        if ROOM < self.octets.len() + octets.len() {
            drop_front(&mut self.octets, self.forgotten);
            self.forgotten = 0;
        }
        let _fits = self.octets.extend_from_slice(octets);
    }

    /// Forgets so many octets at the front.
    pub fn forget(&mut self, count: usize)
        requires { count ≤ length self.old }
        ensures { self.new ≡ drop count self.old }
    {
        self.forgotten += count;
    }

    /// Takes back so many octets at the end.
    pub fn take_back(&mut self, count: usize)
        requires { count ≤ length self.old }
        ensures { self.new ≡ take (length self.old - count) self.old }
    {
        self.octets.truncate(self.octets.len() - count);
    }

    /// Whether octets that start so far before the end of these have another octet than these at a place that both have.
    pub fn is_unlike(&self, before: u64, octets: &[u8]) -> bool
        ensures { result ≡ is_unlike self.now before octets.now }
    {
        let known = self.octets();
        let skipped = before
            .saturating_sub(known.len() as u64)
            .min(octets.len() as u64);
        let first = (known.len() as u64).saturating_sub(before);
        differ(&octets[skipped as usize..], &known[first as usize..])
    }
}

/// Whether two lists of octets differ where both have octets.
fn differ(these: &[u8], others: &[u8]) -> bool
    ensures { result ≡ differ these.now others.now }
{
    let count = these.len().min(others.len());
    these[..count] != others[..count]
}

fn drop_front(octets: &mut Vec<u8>, count: usize)
    requires { count ≤ length octets.old.items }
    ensures items { octets.new.items ≡ drop count octets.old.items }
    ensures room { vec_capacity octets.new ≡ vec_capacity octets.old }
{
    octets.rotate_left(count);
    octets.truncate(octets.len() - count);
}
