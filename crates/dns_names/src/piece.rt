// What stands at a place of a message (RFC 1035, 3.1 and 4.1.4).

ghost use Rattle.std.specs.Prelude.{◌≡◌, length, ◌+◌};
ghost use Rattle.dns_names.specs.Names.{piece_of, piece_at};
ghost use Rattle.dns_names.specs.Inside.Pieces.{piece, IsWithin};

/// What begins at a place.
#[derive(Clone, Copy)]
pub enum PieceAt<'a> {
    /// The root octet, which ends a name.
    Root,
    /// A label of 1 to 63 octets.
    Label(&'a [u8]),
    /// A pointer to a place.
    Pointer(usize),
    /// None of them.
    Nothing,
}

fn piece_of(octets: &[u8]) -> PieceAt<'_>
    ensures is { piece_of octets.now ≡ piece result }
    ensures within { IsWithin result 0 (length octets.now) }
{
    match octets {
        [] => PieceAt::Nothing,
        [first, rest @ ..] => {
            let first = *first;
            if first == 0 {
                return PieceAt::Root;
            }
            if first < 64 {
                let count = first as usize;
                if rest.len() < count {
                    return PieceAt::Nothing;
                }
                return PieceAt::Label(&rest[..count]);
            }
            if first < 192 {
                return PieceAt::Nothing;
            }
            match rest {
                [] => PieceAt::Nothing,
                [low, ..] => PieceAt::Pointer((first - 192) as usize * 256 + *low as usize),
            }
        }
    }
}

/// What begins at a place: nothing where that is the end or behind it.
#[tactic(auto, unfolding(crate::specs::Names::piece_at))]
pub fn piece_at(message: &[u8], place: usize) -> PieceAt<'_>
    ensures is { piece_at message.now place ≡ piece result }
    ensures within { IsWithin result place (length message.now) }
{
    if place >= message.len() {
        return PieceAt::Nothing;
    }
    piece_of(&message[place..])
}
