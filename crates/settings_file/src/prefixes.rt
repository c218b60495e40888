// The prefixes of rules about object identifiers, as texts.
ghost use Rattle.std.specs.Prelude.{◌≡◌, ◌==◌, ◌&&◌, ◌||◌, nat_le, ◌++◌, ◌∷◌, [], option_map, IfOk};
ghost use Rattle.gate_base.specs.Prelude.{is_prefix};
ghost use Rattle.settings_file.specs.Prefixes.{arc_behind, arc_text, arcs_text, prefix_text};

use gate_base::{Arcs, GREATEST_ARC, MOST_ARCS, OutOfMemory, cut, read_number};
use std::alloc::Global;

/// The number that digits write behind those of another, where none on the way is above the greatest arc.
fn arc_behind(number: u32, digits: &[u8]) -> Option<u32>
    ensures { result ≡ arc_behind number digits.now }
{
    let Some((first, others)) = digits.split_first() else {
        return Some(number);
    };
    let digit = read_number(&[*first])?;
    let longer = 10 * u64::from(number) + u64::from(digit);
    if longer > GREATEST_ARC {
        return None;
    }
    arc_behind(longer as u32, others)
}

/// The arc that a text writes: a decimal number up to 4,294,967,295 without leading zeros.
fn read_arc(text: &[u8]) -> Option<u32>
    ensures { result ≡ arc_text text.now }
{
    if text.is_empty() || (text.len() > 1 && text[0] == b'0') {
        None
    } else {
        arc_behind(0, text)
    }
}

/// The arcs with the one that a text writes behind them.
fn with_arc(arcs: Vec<u32>, text: &[u8]) -> Result<Option<Vec<u32>>, OutOfMemory>
    ensures { IfOk result (λ longer. option_map (λ v. v.items) longer
        ≡ option_map (λ arc. arcs.items ++ arc ∷ []) (arc_text text.now)) }
{
    let Some(arc) = read_arc(text) else {
        return Ok(None);
    };
    let mut longer = arcs;
    longer.push(arc)?;
    Ok(Some(longer))
}

/// The arcs that a text writes, joined by dots, if there are at most 64.
fn read_arcs(alloc: Global, text: &[u8]) -> Result<Option<Vec<u32>>, OutOfMemory>
    ensures { IfOk result
        (λ arcs. option_map (λ v. v.items) arcs ≡ arcs_text 64 text.now) }
{
    let mut arcs = Vec::new(alloc);
    let mut rest = text;
    for _ in 0..MOST_ARCS {
        let Some((first, others)) = cut(rest, b'.') else {
            return with_arc(arcs, rest);
        };
        let Some(longer) = with_arc(arcs, first)? else {
            return Ok(None);
        };
        arcs = longer;
        rest = others;
    }
    Ok(None)
}

/// Whether two arcs can stand in one sub-identifier, the first of an identifier (X.690, 8.19.4).
fn can_begin(first: u32, second: u32) -> bool
    ensures { result
        ≡ ((nat_le first 1 && nat_le second 39)
        || (first == 2 && nat_le second 4_294_967_215)) }
{
    (first <= 1 && second <= 39) || (first == 2 && second <= 4_294_967_215)
}

/// Whether arcs can be a prefix: 2 to 64 of them, which can begin an identifier.
fn is_prefix(arcs: &[u32]) -> bool
    ensures { result ≡ is_prefix arcs.now }
{
    match arcs {
        [first, second, ..] => arcs.len() <= MOST_ARCS && can_begin(*first, *second),
        _ => false,
    }
}

/// The arcs of the prefix that a text writes.
#[tactic(auto, unfolding(crate::specs::Prefixes::prefix_text))]
pub fn read_prefix(alloc: Global, text: &[u8]) -> Result<Option<Arcs>, OutOfMemory>
    ensures { IfOk result (λ arcs. arcs ≡ prefix_text text.now) }
{
    match read_arcs(alloc, text)? {
        Some(arcs) if is_prefix(&arcs) => Ok(Some(Arcs::of(arcs))),
        _ => Ok(None),
    }
}
