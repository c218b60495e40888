// The trail through a message to a place from which a name was read before.
ghost use Rattle.std.specs.Prelude.{◌≡◌, ◌≤◌, ◌<◌, ◌+◌, ◌-◌, ◌⊎◌, true, false, ◌++◌, ℕ, List, length, take, drop, IfOk, OnOk, Err};
ghost use Rattle.dns_names.specs.Names.{NameAt};
ghost use Rattle.dns_names.specs.Inside.Memo.{AreKnown, Joins};
ghost use Rattle.dns_names.specs.declared.TheConstants.{LONGEST_MESSAGE};

use crate::known::{Known, known_at};
use crate::label_places::NOWHERE;
use crate::piece::{PieceAt, piece_at};
use crate::stop::NameStop;
use std::alloc::AllocError;

/// Whether a name may end with what is known at a place, if it has this start there and so many octets before it.
fn may_end(found: Known, start: usize, count: usize) -> bool
    requires { count ≤ 254 }
    ensures low { result ≡ true → found.start ≤ start }
    ensures short { result ≡ true → count + found.count ≤ 254 }
    ensures no { result ≡ false
        → (start < found.start) ⊎ (254 < count + found.count) }
{
    found.start as usize <= start && count + found.count as usize <= 254
}

/// Keeps the octets from one place to another. Mostly there are none, since a pointer stands there.
#[inline(always)]
fn keep(kept: &mut Vec<u8>, message: &[u8], from: usize, at: usize) -> Result<(), AllocError>
    requires order { from ≤ at }
    requires inside { at ≤ length message.now }
    ensures items { OnOk result (kept.new.items
        ≡ kept.old.items ++ take (at - from) (drop from message.now)) }
    ensures more { (more : List ℕ) × (kept.new.items ≡ kept.old.items ++ more) }
{
    if from < at {
        kept.extend_from_slice(&message[from..at])?;
    }
    Ok(())
}

/// Goes from a place to one where a name is known, or to the root octet. It puts down the places of the labels and pointers on
/// the trail, and keeps the labels' octets.
pub(crate) fn walk(
    message: &[u8],
    known: &[Known],
    path: &mut Vec<u16>,
    kept: &mut Vec<u8>,
    place: usize,
) -> Result<Known, NameStop>
    requires few { length message.now ≤ LONGEST_MESSAGE }
    requires places { length known.now ≤ length message.now }
    requires known { AreKnown message.now kept.old.items known.now }
    ensures found { IfOk result (λ k. Joins message.now kept.old.items kept.new.items
        place path.new.items k) }
    ensures none { result ≡ Err NameStop.BadDns
        → (labels : List (List ℕ)) (after : ℕ)
        → NameAt message.now place labels after
        → ⊥ }
    ensures more { (more : List ℕ) × (kept.new.items ≡ kept.old.items ++ more) }
{
    path.clear();
    let mut count = 0;
    let mut start = place;
    let mut at = place;
    // the labels from here on aren't kept yet
    let mut from = place;
    'pieces: loop {
        if let Some(found) = known_at(known, at) {
            if !may_end(found, start, count) {
                return Err(NameStop::BadDns);
            }
            keep(kept, message, from, at)?;
            return Ok(found);
        }
        match piece_at(message, at) {
            PieceAt::Root => {
                keep(kept, message, from, at)?;
                return Ok(Known {
                    from: 0,
                    start: 0,
                    after: (at + 1) as u16,
                    label: NOWHERE,
                    count: 0,
                });
            }
            PieceAt::Label(label) => {
                if count + 1 + label.len() > 254 {
                    return Err(NameStop::BadDns);
                }
                path.push(at as u16)?;
                count += 1 + label.len();
                at += 1 + label.len();
            }
            PieceAt::Pointer(to) => {
                if to >= start {
                    return Err(NameStop::BadDns);
                }
                keep(kept, message, from, at)?;
                path.push(at as u16)?;
                start = to;
                at = to;
                from = to;
            }
            PieceAt::Nothing => return Err(NameStop::BadDns),
        }
    }
}
