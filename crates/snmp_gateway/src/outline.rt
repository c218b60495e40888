// What a message has before its bindings, and the walk over its addresses.
ghost use Rattle.std.specs.Prelude.{◌≡◌, ◌++◌, if◌then◌else◌, Some, None, [], length, option_map, option_to_list, IsNone};
ghost use Rattle.std.specs.Option.{ForSome};
ghost use Rattle.snmp_gateway.specs.Message.{address_in, is_common_value_tag, is_value_tag, binding, request, trap, is_pdu_tag, pdu, with_community, by_version, outline_of, places_ahead};
ghost use Rattle.snmp_gateway.specs.Inside.Walk.{is_at_end, StandsIn, Passes};

use crate::message::SnmpKind;
use crate::part::{
    COUNTER, COUNTER_64, GAUGE, INTEGER, IP_ADDRESS, NULL, OBJECT_IDENTIFIER, OCTET_STRING, OPAQUE,
    Part, Piece, SEQUENCE, TIME_TICKS, behind_fields, field, in_sequence, is_exception, only,
};

/// The tag of a GetRequest, the first PDU (RFC 1157, 4.1.2).
pub const GET_REQUEST: u8 = 0xa0;

/// The tag of a SetRequest (RFC 1157, 4.1.5).
pub const SET_REQUEST: u8 = 0xa3;

/// The tag of a GetBulkRequest, the first PDU that came with version 2 (RFC 3416, 3).
pub const GET_BULK_REQUEST: u8 = 0xa5;

/// The tag of a Report, the last PDU of version 2 (RFC 3416, 3).
pub const REPORT: u8 = 0xa8;

/// The tag of the Trap of version 1 (RFC 1157, 4.1.6).
pub const TRAP: u8 = 0xa4;

/// The kind of a message, and the addresses that a walk over it has ahead: a trap's agent address, and those in bindings.
#[derive(Clone, Copy)]
pub(crate) struct Outline {
    pub(crate) kind: SnmpKind,
    pub(crate) agent: Option<usize>,
    pub(crate) bindings: Part,
}

impl Outline {
    /// The place of the next address, which is then behind; None where there are no more, or what is ahead are no bindings.
    pub(crate) fn next_place(&mut self, octets: &[u8]) -> Option<usize>
        requires stands { StandsIn (length octets.now) self.old }
        ensures ahead { places_ahead octets.now self.old
            ≡ option_map (λ more. option_to_list result ++ more)
            (places_ahead octets.now self.new) }
        ensures passes { ForSome result (λ place. Passes self.old place self.new) }
        ensures stands { StandsIn (length octets.now) self.new }
        ensures kind { self.new.kind ≡ self.old.kind }
        ensures stops { IsNone result
            → places_ahead octets.now self.new
            ≡ (if is_at_end self.new then Some [] else None) }
    {
        if let Some(place) = self.agent.take() {
            return Some(place);
        }
        while let Some((address, rest)) = binding(octets, self.kind, self.bindings) {
            self.bindings = rest;
            if address.is_some() {
                return address;
            }
        }
        None
    }

    /// Whether no bindings are ahead.
    pub(crate) fn is_at_end(&self) -> bool
        ensures { result ≡ is_at_end self.now }
    {
        self.bindings.start == self.bindings.end
    }
}

/// The kind, the place of a trap's agent address, and the part of the bindings.
#[tactic(auto, unfolding(crate::specs::Message::outline_of))]
pub(crate) fn outline_of(octets: &[u8]) -> Option<Outline>
    ensures { result ≡ outline_of octets.now }
{
    let whole = Part {
        start: 0,
        end: octets.len(),
    };
    let content = in_sequence(octets, whole)?;
    let version = field(octets, INTEGER, content)?;
    if version.content.end - version.content.start != 1 {
        return None;
    }
    by_version(octets, octets[version.content.start], version.rest)
}

fn by_version(octets: &[u8], version: u8, part: Part) -> Option<Outline>
    ensures { result ≡ by_version octets.now version part }
{
    match version {
        0 => with_community(octets, SnmpKind::V1, part),
        1 => with_community(octets, SnmpKind::V2, part),
        3 => {
            let bindings = Part {
                start: octets.len(),
                end: octets.len(),
            };
            Some(Outline {
                kind: SnmpKind::V3,
                agent: None,
                bindings,
            })
        }
        _ => None,
    }
}

fn with_community(octets: &[u8], kind: SnmpKind, part: Part) -> Option<Outline>
    ensures { result ≡ with_community octets.now kind part }
{
    let rest = behind_fields(octets, &[OCTET_STRING], part)?;
    let piece = only(octets, rest)?;
    let (agent, rest) = pdu(octets, kind, piece)?;
    let bindings = in_sequence(octets, rest)?;
    Some(Outline {
        kind,
        agent,
        bindings,
    })
}

// Whether a PDU can have this tag (RFC 1157, 4.1; RFC 3416, 3).
fn is_pdu_tag(kind: SnmpKind, tag: u8) -> bool
    ensures { result ≡ is_pdu_tag kind tag }
{
    match kind {
        SnmpKind::V1 => matches!(tag, GET_REQUEST..=TRAP),
        SnmpKind::V2 => matches!(tag, GET_REQUEST..=SET_REQUEST | GET_BULK_REQUEST..=REPORT),
        SnmpKind::V3 => false,
    }
}

// The place of a PDU's agent address, if it has one, and what follows its fields.
fn pdu(octets: &[u8], kind: SnmpKind, piece: Piece) -> Option<(Option<usize>, Part)>
    ensures { result ≡ pdu octets.now kind piece }
{
    if !is_pdu_tag(kind, piece.tag) {
        None
    } else if piece.tag == TRAP {
        trap(octets, piece.content)
    } else {
        request(octets, piece.content)
    }
}

fn request(octets: &[u8], part: Part) -> Option<(Option<usize>, Part)>
    ensures { result ≡ request octets.now part }
{
    let rest = behind_fields(octets, &[INTEGER, INTEGER, INTEGER], part)?;
    Some((None, rest))
}

fn trap(octets: &[u8], part: Part) -> Option<(Option<usize>, Part)>
    ensures { result ≡ trap octets.now part }
{
    let rest = behind_fields(octets, &[OBJECT_IDENTIFIER], part)?;
    let agent = field(octets, IP_ADDRESS, rest)?;
    let rest = behind_fields(octets, &[INTEGER, INTEGER, TIME_TICKS], agent.rest)?;
    Some((Some(agent.content.start), rest))
}

// Whether a value has this tag in each version with a community (RFC 1155, 6).
fn is_common_value_tag(tag: u8) -> bool
    ensures { result ≡ is_common_value_tag tag }
{
    match tag {
        INTEGER | OCTET_STRING | NULL | OBJECT_IDENTIFIER => true,
        IP_ADDRESS | COUNTER | GAUGE | TIME_TICKS | OPAQUE => true,
        _ => false,
    }
}

// Whether a value can have this tag (RFC 1157, 5; RFC 3416, 3).
fn is_value_tag(kind: SnmpKind, tag: u8) -> bool
    ensures { result ≡ is_value_tag kind tag }
{
    match kind {
        SnmpKind::V1 => is_common_value_tag(tag),
        SnmpKind::V2 => is_common_value_tag(tag) || tag == COUNTER_64 || is_exception(tag),
        SnmpKind::V3 => false,
    }
}

/// The place of the address, if there is one, in the binding that a part begins with, and the bindings behind that.
#[tactic(auto, unfolding(crate::specs::Message::binding))]
pub(crate) fn binding(octets: &[u8], kind: SnmpKind, part: Part) -> Option<(Option<usize>, Part)>
    ensures { result ≡ binding octets.now kind part }
{
    let pair = field(octets, SEQUENCE, part)?;
    let rest = behind_fields(octets, &[OBJECT_IDENTIFIER], pair.content)?;
    let value = only(octets, rest)?;
    if !is_value_tag(kind, value.tag) {
        return None;
    }
    Some((address_in(value), pair.rest))
}

// The place of a value's address, if it is one.
fn address_in(value: Piece) -> Option<usize>
    ensures { result ≡ address_in value }
{
    if value.tag == IP_ADDRESS {
        Some(value.content.start)
    } else {
        None
    }
}
