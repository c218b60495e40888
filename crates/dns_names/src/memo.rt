// What is kept of a message of which many names are read.
ghost use Rattle.std.specs.Prelude.{◌≡◌, ◌+◌, ◌≤◌, ◌++◌, ℕ, List, [], nat_lt, if◌then◌else◌, length, IfOk, IfSome, OnOk, Err};
ghost use Rattle.dns_names.specs.Names.{NameAt};
ghost use Rattle.dns_names.specs.Inside.Memo.{octets_of, IsMemo, Here};

use crate::known::{Known, UNKNOWN, before, put};
use crate::label_places::LabelPlaces;
use crate::name::Name;
use crate::stop::NameStop;
use crate::walk::walk;
use crate::{LONGEST_MESSAGE, POINTED};
use gate_base::OutOfMemory;
use std::alloc::{AllocError, Global};

/// What was read from the places where a pointer can lead, the octets of the names that were read, and room for the places of
/// one name and for the octets at its end.
#[derive(Drop)]
pub struct Memo {
    pub(crate) known: Vec<Known>,
    pub(crate) kept: Vec<u8>,
    pub(crate) path: Vec<u16>,
    pub(crate) room: Vec<u8>,
}

/// The least number of octets of a message of which is kept what was read. A shorter one is read as it stands.
const LONG: usize = 128;

/// The most octets of the labels of a name. So much room is made for them at the start.
const LONGEST_NAME: usize = 254;

/// The most labels of a name, likewise.
const MOST_LABELS: usize = 127;

/// Nothing is known yet. Of a message that is short, or longer than any is, nothing is kept.
pub(crate) fn memo_of(alloc: Global, message: &[u8]) -> Result<Option<Memo>, OutOfMemory>
    ensures { IfOk result (λ found. IfSome found (IsMemo message.now)) }
{
    let count = message.len();
    if count < LONG || count > LONGEST_MESSAGE {
        return Ok(None);
    }
    let known = vec![in alloc; UNKNOWN; count.min(POINTED)]?;
    Ok(Some(Memo {
        known,
        kept: Vec::with_capacity(alloc, LONGEST_NAME)?,
        path: Vec::with_capacity(alloc, MOST_LABELS)?,
        room: Vec::new(alloc),
    }))
}

/// Keeps the octets at the end of a name behind those of its first labels, if it has such.
fn keep_end(
    kept: &mut Vec<u8>,
    room: &mut Vec<u8>,
    base: usize,
    end: Known,
) -> Result<(), AllocError>
    requires { end.from + end.count ≤ length kept.old.items }
    ensures items { OnOk result (kept.new.items
        ≡ kept.old.items
        ++ (if nat_lt base (length kept.old.items) then octets_of kept.old.items
        end else [])) }
    ensures more { (more : List ℕ) × (kept.new.items ≡ kept.old.items ++ more) }
{
    if base < kept.len() {
        room.clear();
        room.extend_from_slice(&kept[end.from..end.from + end.count as usize])?;
        kept.extend_from_slice(room)?;
    }
    Ok(())
}

/// Notes a place if a label stands there. Where memory runs out, a hint is missing.
fn note(labels: &mut Vec<u16>, message: &[u8], place: u16) {
    if let Some(octet) = message.get(place as usize)
        && *octet < 64
    {
        let _ = labels.push(place);
    }
}

/// What is known at a place from which a name is read. The same is put down for the places on its trail.
fn find(
    message: &[u8],
    memo: &mut Memo,
    place: usize,
    places: &mut LabelPlaces,
) -> Result<Known, NameStop>
    requires { IsMemo message.now memo.old }
    ensures memo { IsMemo message.now memo.new }
    ensures found { IfOk result (λ k. Here message.now memo.new.kept.items place k) }
    ensures none { result ≡ Err NameStop.BadDns
        → (labels : List (List ℕ)) (after : ℕ)
        → NameAt message.now place labels after
        → ⊥ }
{
    let base = memo.kept.len();
    let mut known = walk(message, &memo.known, &mut memo.path, &mut memo.kept, place)?;
    places.joined = known.label;
    keep_end(&mut memo.kept, &mut memo.room, base, known)?;
    let end = memo.kept.len();
    'back: while let Some(at) = memo.path.pop() {
        known = before(message, at as usize, known, end);
        put(&mut memo.known, at as usize, known);
        note(&mut places.new, message, at);
    }
    Ok(known)
}

/// The name that stands at a place, and the place after it.
pub(crate) fn read_on(
    alloc: Global,
    message: &[u8],
    memo: &mut Memo,
    place: usize,
) -> Result<(Name, usize), NameStop>
    requires { IsMemo message.now memo.old }
    ensures memo { IsMemo message.now memo.new }
    ensures found { IfOk result (λ x. NameAt message.now place x.0 x.1) }
    ensures none { result ≡ Err NameStop.BadDns
        → (labels : List (List ℕ)) (after : ℕ)
        → NameAt message.now place labels after
        → ⊥ }
{
    let mut places = LabelPlaces::short(alloc);
    let known = find(message, memo, place, &mut places)?;
    let end = known.from + known.count as usize;
    let octets = Vec::from_slice(alloc, &memo.kept[known.from..end])?;
    Ok((Name { octets, places }, known.after as usize))
}
