// Octets in memory, to be read.
ghost use Rattle.std.specs.Prelude.{◌≡◌, ◌≤◌, List, ℕ, length, min, take, drop};
ghost use Rattle.gate_desk.specs.Slots.{inputs};

use crate::PerSlot;
use std::alloc::Global;
use std::marker::Model;

/// What is still to be read.
#[derive(Drop)]
pub struct Source {
    octets: Vec<u8>,
    taken: usize,
}

impl Model for Source {
    ghost Value = { List ℕ };

    ghost view = { λ s. drop s.taken s.octets.items };

    ghost invariant = { λ s. s.taken ≤ length s.octets.items };
}

impl Source {
    /// All of these octets.
    pub fn new(octets: Vec<u8>) -> Self
        ensures { result ≡ octets.items }
    {
        Source { octets, taken: 0 }
    }

    /// The octets that are still to be read.
    pub fn octets(&self) -> &[u8]
        ensures { result.now ≡ self.now }
    {
        &self.octets[self.taken..]
    }

    /// Drops octets from the front.
    pub fn skip(&mut self, count: usize)
        requires { count ≤ length self.old }
        ensures { self.new ≡ drop count self.old }
    {
        self.taken += count;
    }

    /// Moves octets from the front to the buffer, as many as fit, and answers how many.
    pub fn read(&mut self, buffer: &mut [u8]) -> usize
        ensures count { result ≡ min (length buffer.old) (length self.old) }
        ensures rest { self.new ≡ drop result self.old }
        ensures octets { take result buffer.new ≡ take result self.old }
    {
        let n = buffer.len().min(self.octets.len() - self.taken);
        buffer[..n].copy_from_slice(&self.octets[self.taken..self.taken + n]);
        self.taken += n;
        n
    }
}

impl PerSlot<Source> {
    /// Settings and two captures to be read, and nothing of any other slot.
    pub fn inputs(
        alloc: Global,
        settings: Vec<u8>,
        left: Vec<u8>,
        right: Vec<u8>,
    ) -> PerSlot<Source>
        ensures { result ≡ inputs settings.items left.items right.items }
    {
        PerSlot {
            settings: Source::new(settings),
            left_in: Source::new(left),
            right_in: Source::new(right),
            left_given: Source::new(Vec::new(alloc)),
            right_given: Source::new(Vec::new(alloc)),
            report_given: Source::new(Vec::new(alloc)),
            left_out: Source::new(Vec::new(alloc)),
            right_out: Source::new(Vec::new(alloc)),
            report: Source::new(Vec::new(alloc)),
            errors: Source::new(Vec::new(alloc)),
        }
    }
}
