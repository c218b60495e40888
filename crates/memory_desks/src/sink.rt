// What is written in memory.
ghost use Rattle.std.specs.Prelude.{◌≡◌, ◌+◌, ◌*◌, ◌^◌, ◌≤◌, ◌++◌, [], length, IfOk};
ghost use Rattle.memory_desks.specs.Memory.{total};

use gate_desk::PerSlot;
use std::alloc::{AllocError, Global};
use std::marker::Model;

/// What was written, with room for 64 MiB.
#[derive(Drop)]
pub struct Sink {
    octets: Vec<u8>,
}

impl Model for Sink {
    ghost use Rattle.std.specs.Prelude.{List, ℕ, ◌≤◌, ◌^◌, length, vec_capacity};

    ghost Value = { List ℕ };

    ghost view = { λ s. s.octets.items };

    ghost invariant = { λ s. (2 ^ 26 ≤ vec_capacity s.octets) × (length s.octets.items ≤ 2 ^ 26) };
}

impl Sink {
    pub fn new(alloc: Global) -> Result<Self, AllocError>
        ensures { IfOk result (λ s. s ≡ []) }
    {
        Ok(Sink {
            octets: Vec::with_capacity(alloc, 1 << 26)?,
        })
    }

    pub fn octets(&self) -> &[u8]
        ensures { result.now ≡ self.now }
    {
        &self.octets
    }

    pub fn len(&self) -> usize
        ensures is { result ≡ length self.now }
        ensures small { result ≤ 2 ^ 26 }
    {
        self.octets.len()
    }

    /// Appends octets.
    pub fn push(&mut self, piece: &[u8])
        requires { length self.old + length piece.now ≤ 2 ^ 26 }
        ensures { self.new ≡ self.old ++ piece.now }
    {
        if self.octets.extend_from_slice(piece).is_err() {
            unreachable!();
        }
    }
}

/// How many octets were written on all slots together.
pub fn total_of(written: &PerSlot<Sink>) -> usize
    ensures is { result ≡ total written.now }
    ensures small { result ≤ 10 * 2 ^ 26 }
{
    written.settings.len()
        + written.left_in.len()
        + written.right_in.len()
        + written.left_given.len()
        + written.right_given.len()
        + written.report_given.len()
        + written.left_out.len()
        + written.right_out.len()
        + written.report.len()
        + written.errors.len()
}
