// Names, and reading them (RFC 1035, 3.1 and 4.1.4).
ghost use Rattle.std.specs.Prelude.{◌≡◌, ℕ, List, IfOk, Err};
ghost use Rattle.dns_names.specs.Names.{NameAt};
ghost use Rattle.dns_names.specs.Walk.{name_at};
ghost use Rattle.dns_names.specs.Stops.{ReturnsRead};

use crate::label_places::LabelPlaces;
use crate::piece::{PieceAt, piece_at};
use crate::stop::NameStop;
use gate_base::OutOfMemory;
use std::alloc::Global;
use std::marker::Model;

/// A name, seen as the list of its labels: each has 1 to 63 octets, and written out with the root octet they have at most
/// 255.
#[derive(Drop)]
pub struct Name {
    pub(crate) octets: Vec<u8>,
    pub(crate) places: LabelPlaces,
}

impl Model for Name {
    ghost use Rattle.std.specs.Prelude.{ℕ, List};
    ghost use Rattle.dns_names.specs.Names.{IsSpelled};
    ghost use Rattle.dns_names.specs.Inside.Names.{labels_in};

    ghost Value = { List (List ℕ) };

    ghost view = { λ n. labels_in n.octets.items };

    ghost invariant = { λ n. IsSpelled n.octets.items (labels_in n.octets.items) };
}

impl Name {
    ghost use Rattle.std.specs.Prelude.{◌≡◌, IfOk};
    ghost use Rattle.dns_names.specs.Names.{IsName, IsSpelled};

    /// The labels written out, each behind its length, without the root octet.
    pub fn octets(&self) -> &[u8]
        ensures { IsSpelled result.now self.now }
    {
        &self.octets
    }

    /// The same name once more.
    pub fn try_clone(&self, alloc: Global) -> Result<Name, OutOfMemory>
        ensures same { IfOk result (λ name. name ≡ self.now) }
        ensures name { IsName self.now }
    {
        let places = LabelPlaces::short(alloc);
        let octets = Vec::from_slice(alloc, &self.octets)?;
        Ok(Name { octets, places })
    }
}

/// The room that a name is begun with, in octets: most names have fewer.
pub(crate) const ROOM: usize = 32;

/// The name at a place of a message.
pub(crate) fn name_of(
    alloc: Global,
    message: &[u8],
    place: usize,
) -> Result<(Name, usize), NameStop>
    ensures found { IfOk result (λ x. NameAt message.now place x.0 x.1) }
    ensures none { result ≡ Err NameStop.BadDns
        → (labels : List (List ℕ)) (after : ℕ)
        → NameAt message.now place labels after
        → ⊥ }
{
    let places = LabelPlaces::short(alloc);
    let mut octets = Vec::with_capacity(alloc, ROOM)?;
    let mut start = place;
    let mut at = place;
    // the labels from here on aren't copied yet
    let mut from = place;
    let mut after: Option<usize> = None;
    'pieces: loop {
        match piece_at(message, at) {
            PieceAt::Root => {
                octets.extend_from_slice(&message[from..at])?;
                let end = after.unwrap_or(at + 1);
                return Ok((Name { octets, places }, end));
            }
            PieceAt::Label(label) => {
                let next = at + 1 + label.len();
                if octets.len() + (next - from) > 254 {
                    return Err(NameStop::BadDns);
                }
                at = next;
            }
            PieceAt::Pointer(to) => {
                if to >= start {
                    return Err(NameStop::BadDns);
                }
                octets.extend_from_slice(&message[from..at])?;
                after = after.or(Some(at + 2));
                start = to;
                at = to;
                from = to;
            }
            PieceAt::Nothing => return Err(NameStop::BadDns),
        }
    }
}

/// The name that stands at a place, and the place after it. `BadDns` exactly where none stands there. There a label passes the
/// end, an octet from 64 to 191 stands for a length, or a pointer leads to no place below the start of its name. Or the name has
/// more than 255 octets when written out.
pub fn read_name(alloc: Global, message: &[u8], place: usize) -> Result<(Name, usize), NameStop>
    ensures found { IfOk result (λ x. NameAt message.now place x.0 x.1) }
    ensures none { result ≡ Err NameStop.BadDns
        → (labels : List (List ℕ)) (after : ℕ)
        → NameAt message.now place labels after
        → ⊥ }
    ensures exact { ReturnsRead (λ x. (x.0, x.1)) result (name_at message.now place) }
{
    name_of(alloc, message, place)
}
