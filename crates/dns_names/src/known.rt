// What was read from the places of a message on.
ghost use Rattle.std.specs.Prelude.{◌≡◌, ◌+◌, ◌≤◌, ◌<◌, ℕ, List, length, IfSome};
ghost use Rattle.dns_names.specs.Names.{piece_at, Label, Pointer};
ghost use Rattle.dns_names.specs.Inside.Memo.{known_by, Knows, AreKnown};
ghost use Rattle.dns_names.specs.declared.TheConstants.{LONGEST_MESSAGE};

use crate::piece::{PieceAt, piece_at};

/// What was read from a place on: where the octets of the labels there begin among those that were kept, how many they are,
/// the least start of a name that may end with them, the place after them, which is 0 where nothing was read yet, and the place of
/// the first label.
#[derive(Clone, Copy)]
pub struct Known {
    pub(crate) from: usize,
    pub(crate) start: u16,
    pub(crate) after: u16,
    pub(crate) label: u16,
    pub(crate) count: u8,
}

/// Nothing was read.
pub(crate) const UNKNOWN: Known = Known {
    from: 0,
    start: 0,
    after: 0,
    label: 0,
    count: 0,
};

/// What is known at a place.
pub(crate) fn known_at(known: &[Known], place: usize) -> Option<Known>
    ensures known { (message kept : List ℕ)
        → AreKnown message kept known.now
        → IfSome result (λ k. Knows message kept place k) }
    ensures place { IfSome result (λ _. place < length known.now) }
{
    if place >= known.len() {
        return None;
    }
    let one = known[place];
    if one.after == 0 { None } else { Some(one) }
}

/// Puts down what is known at a place.
pub(crate) fn put(known: &mut Vec<Known>, place: usize, one: Known)
    ensures known { (message kept : List ℕ)
        → Knows message kept place one
        → AreKnown message kept known.old.items
        → AreKnown message kept known.new.items }
    ensures len { length known.new.items ≡ length known.old.items }
{
    if place < known.len() {
        known[place] = one;
    }
}

/// What is known at the place of a label or a pointer, by what is known behind it, where the kept octets of both end there.
pub(crate) fn before(message: &[u8], place: usize, behind: Known, end: usize) -> Known
    requires few { length message.now ≤ LONGEST_MESSAGE }
    requires fits { (label : List ℕ)
        → piece_at message.now place ≡ Label label
        → behind.count + 1 + length label ≤ 254 }
    requires below { (to : ℕ) → piece_at message.now place ≡ Pointer to → to < place }
    requires room { (label : List ℕ)
        → piece_at message.now place ≡ Label label
        → behind.count + 1 + length label ≤ end }
    ensures { result ≡ known_by (piece_at message.now place) place end behind }
{
    match piece_at(message, place) {
        PieceAt::Label(label) => {
            let count = behind.count as usize + 1 + label.len();
            Known {
                from: end - count,
                start: behind.start,
                after: behind.after,
                label: place as u16,
                count: count as u8,
            }
        }
        PieceAt::Pointer(to) => Known {
            from: behind.from,
            start: (to + 1) as u16,
            after: (place + 2) as u16,
            label: behind.label,
            count: behind.count,
        },
        _ => behind,
    }
}
