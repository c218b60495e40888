// Elements in a message, by their places.
ghost use Rattle.std.specs.Prelude.{◌≡◌, ◌+◌, ◌≤◌, option_map, length, IfSome};
ghost use Rattle.snmp_gateway.specs.Parts.{is_exception, has_right_size, octets_in, first_of, field, behind_fields, only, in_sequence};

use crate::tlv::Tlv;

/// The tag of an INTEGER (X.690, 8.3).
pub const INTEGER: u8 = 0x02;

/// The tag of an OCTET STRING (X.690, 8.7).
pub const OCTET_STRING: u8 = 0x04;

/// The tag of a NULL (X.690, 8.8).
pub const NULL: u8 = 0x05;

/// The tag of an OBJECT IDENTIFIER (X.690, 8.19).
pub const OBJECT_IDENTIFIER: u8 = 0x06;

/// The tag of a SEQUENCE (X.690, 8.9).
pub const SEQUENCE: u8 = 0x30;

/// The tag of an IpAddress (RFC 1155, 6).
pub const IP_ADDRESS: u8 = 0x40;

/// The tag of a Counter (RFC 1155, 6).
pub const COUNTER: u8 = 0x41;

/// The tag of a Gauge (RFC 1155, 6).
pub const GAUGE: u8 = 0x42;

/// The tag of a TimeTicks (RFC 1155, 6).
pub const TIME_TICKS: u8 = 0x43;

/// The tag of an Opaque (RFC 1155, 6).
pub const OPAQUE: u8 = 0x44;

/// The tag of a Counter64, which came with version 2 (RFC 2578, 7.1.10).
pub const COUNTER_64: u8 = 0x46;

/// The tag of a noSuchObject in the place of a value (RFC 3416, 3).
pub const NO_SUCH_OBJECT: u8 = 0x80;

/// The tag of a noSuchInstance in the place of a value (RFC 3416, 3).
pub const NO_SUCH_INSTANCE: u8 = 0x81;

/// The tag of an endOfMibView in the place of a value (RFC 3416, 3).
pub const END_OF_MIB_VIEW: u8 = 0x82;

/// The octets of a message from a place up to another.
#[derive(Clone, Copy)]
pub(crate) struct Part {
    pub(crate) start: usize,
    pub(crate) end: usize,
}

/// An element in a part: its tag, its content, and the rest of the part.
#[derive(Clone, Copy)]
pub(crate) struct Piece {
    pub(crate) tag: u8,
    pub(crate) content: Part,
    pub(crate) rest: Part,
}

/// Whether this is the tag of what stands in the place of a value that there isn't.
pub(crate) fn is_exception(tag: u8) -> bool
    ensures { result ≡ is_exception tag }
{
    matches!(tag, NO_SUCH_OBJECT | NO_SUCH_INSTANCE | END_OF_MIB_VIEW)
}

// Whether an element with this tag can have so many octets of content.
fn has_right_size(tag: u8, count: usize) -> bool
    ensures { result ≡ has_right_size tag count }
{
    match tag {
        INTEGER | OBJECT_IDENTIFIER => count > 0,
        IP_ADDRESS => count == 4,
        NULL | NO_SUCH_OBJECT | NO_SUCH_INSTANCE | END_OF_MIB_VIEW => count == 0,
        _ => true,
    }
}

// The octets of a part, where the message has them.
fn octets_in(octets: &[u8], part: Part) -> Option<&[u8]>
    ensures value { option_map (λ within. within.now) result
        ≡ octets_in octets.now part }
    ensures size { IfSome result (λ within. (length within.now + part.start
        ≡ part.end) × (part.end ≤ length octets.now)) }
{
    if part.start <= part.end && part.end <= octets.len() {
        Some(&octets[part.start..part.end])
    } else {
        None
    }
}

/// The element that a part begins with, if its content has a right size.
#[tactic(auto, unfolding(crate::specs::Parts::first_of))]
pub(crate) fn first(octets: &[u8], part: Part) -> Option<Piece>
    ensures { result ≡ first_of octets.now part }
{
    let (element, rest) = Tlv::of(octets_in(octets, part)?)?;
    let count = element.content().len();
    if !has_right_size(element.tag(), count) {
        return None;
    }
    let end = part.end - rest.len();
    Some(Piece {
        tag: element.tag(),
        content: Part {
            start: end - count,
            end,
        },
        rest: Part {
            start: end,
            end: part.end,
        },
    })
}

/// The element that a part begins with, if it has this tag.
pub(crate) fn field(octets: &[u8], tag: u8, part: Part) -> Option<Piece>
    ensures { result ≡ field octets.now tag part }
{
    let piece = first(octets, part)?;
    if piece.tag == tag { Some(piece) } else { None }
}

/// What follows the fields with these tags that a part begins with.
pub(crate) fn behind_fields(octets: &[u8], tags: &[u8], part: Part) -> Option<Part>
    ensures { result ≡ behind_fields octets.now tags.now part }
{
    let mut rest = part;
    for tag in tags {
        rest = field(octets, *tag, rest)?.rest;
    }
    Some(rest)
}

/// The only element of a part.
pub(crate) fn only(octets: &[u8], part: Part) -> Option<Piece>
    ensures { result ≡ only octets.now part }
{
    let piece = first(octets, part)?;
    if piece.rest.start == piece.rest.end {
        Some(piece)
    } else {
        None
    }
}

/// The content of the only element of a part, if that is a sequence.
pub(crate) fn in_sequence(octets: &[u8], part: Part) -> Option<Part>
    ensures { result ≡ in_sequence octets.now part }
{
    let piece = only(octets, part)?;
    if piece.tag == SEQUENCE {
        Some(piece.content)
    } else {
        None
    }
}
