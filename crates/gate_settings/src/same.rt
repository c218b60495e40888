// The blocks of `same`, and where addresses lie in them.
ghost use Rattle.std.specs.Prelude.{◌≡◌, IfOk};
ghost use Rattle.std.specs.List.{list_any};
ghost use Rattle.gate_settings.specs.Cross.{is_in_same};
ghost use Rattle.gate_settings.specs.Inside.Ranges.{is_in_range, ranges_from, AreRanges, Rise};

use crate::settings::Block;
use gate_base::{Addr, OutOfMemory};
use std::alloc::Global;
use std::marker::Model;

/// The addresses from the first one to the last one.
#[derive(Clone, Copy)]
struct SameRange {
    first: u32,
    last: u64,
}

/// A list of blocks, in which an address is found by halving.
#[derive(Drop)]
pub struct SameRanges {
    blocks: Vec<Block>,
    // for each block, in the order of their first addresses, that address, and the last one of any block up to there
    ranges: Vec<SameRange>,
}

impl Model for SameRanges {
    ghost use Rattle.std.specs.Prelude.{List};
    ghost use Rattle.gate_settings.specs.declared.settings.Block.{Block};

    ghost Value = { List Block };

    ghost use Rattle.gate_settings.specs.Inside.Ranges.{AreRanges};

    ghost view = { λ same. same.blocks.items };

    ghost invariant = { λ same. AreRanges same.blocks.items same.ranges.items };
}

impl SameRanges {
    /// The list of these blocks. The error is that there is too little memory.
    pub fn of(alloc: Global, blocks: &[Block]) -> Result<SameRanges, OutOfMemory>
        ensures { IfOk result (λ same. same ≡ blocks.now) }
    {
        Ok(SameRanges {
            blocks: Vec::from_slice(alloc, blocks)?,
            ranges: ranges_of(alloc, blocks)?,
        })
    }

    /// Whether the address lies in one of the blocks.
    pub fn contains(&self, address: Addr) -> bool
        ensures { result ≡ is_in_same address self.now }
    {
        is_in_one(&self.ranges, address.0)
    }
}

fn ranges_of(alloc: Global, blocks: &[Block]) -> Result<Vec<SameRange>, OutOfMemory>
    ensures { IfOk result (λ ranges. AreRanges blocks.now ranges.items) }
{
    let mut sorted = Vec::from_slice(alloc, blocks)?;
    sorted.sort_unstable_by_key(|block| block.base.0);
    ranges_from(alloc, &sorted)
}

fn ranges_from(alloc: Global, sorted: &[Block]) -> Result<Vec<SameRange>, OutOfMemory>
    ensures { IfOk result (λ ranges. ranges.items ≡ ranges_from 0 sorted.now) }
{
    let mut ranges = Vec::with_capacity(alloc, sorted.len())?;
    let mut last = 0;
    for block in sorted {
        last = block.end().max(last);
        ranges.push(SameRange {
            first: block.base.0,
            last,
        })?;
    }
    Ok(ranges)
}

fn is_in_one(ranges: &[SameRange], address: u32) -> bool
    requires { Rise ranges.now }
    ensures { result ≡ list_any (is_in_range address) ranges.now }
{
    let begun = ranges.partition_point(|range| range.first <= address);
    begun > 0 && u64::from(address) <= ranges[begun - 1].last
}
