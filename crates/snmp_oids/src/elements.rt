// The elements of a message, with the images of the addresses in them (X.690, 8.1).
ghost use Rattle.std.specs.Prelude.{◌≡◌, ◌+◌, ◌*◌, ◌^◌, ◌<◌, ◌≤◌, length, option_map, IfSome};
ghost use Rattle.snmp_gateway.specs.Element.{Element, element_at};
ghost use Rattle.gate_base.specs.Prelude.{AreRules};
ghost use Rattle.snmp_oids.specs.Elements.{is_constructed, address_renamed, primitive_renamed, content_renamed, elements_renamed};
ghost use Rattle.snmp_oids.specs.Inside.Written.{with_octets};

use crate::head::{LEAST_HEAD, put_before};
use crate::identifier::put_identifier;
use crate::put::put;
use gate_base::{Addr, get_u32, put_u32};
use oid_rules::SortedRules;
use snmp_gateway::{IP_ADDRESS, Lookup, OBJECT_IDENTIFIER, Tlv};

// The element that octets begin with, and the octets behind it.
fn next_element(octets: &[u8]) -> Option<(Tlv<'_>, &[u8])>
    ensures value { option_map (λ p. (p.0, p.1.now)) result ≡ element_at octets.now }
    ensures size { IfSome result
        (λ p. length p.0.content + length p.1.now + 2 ≤ length octets.now) }
    ensures small { IfSome result (λ p. length p.0.content < 2 ^ 32) }
{
    Tlv::of(octets)
}

// Whether the content of an element with this tag is elements (X.690, 8.1.2.5).
fn is_constructed(tag: u8) -> bool
    ensures { result ≡ is_constructed tag }
{
    tag / 32 % 2 == 1
}

// Writes the content of an IpAddress with its image in its place. The result is the place behind it.
fn put_ip_address<L: Lookup>(content: &[u8], lookup: &L, target: &mut [u8], place: usize) -> usize
    requires { place + length content.now ≤ length target.old }
    ensures written { target.new
        ≡ with_octets place (address_renamed (L.image_of lookup.now) content.now)
        target.old }
    ensures end { result
        ≡ place + length (address_renamed (L.image_of lookup.now) content.now) }
    ensures within { result ≤ place + length content.now }
{
    if content.len() == 4 {
        if let Some(address) = lookup.image(Addr(get_u32(content, 0))) {
            put_u32(target, place, address.0);
            return place + 4;
        }
    }
    put(content, target, place)
}

// Writes content that isn't elements with the images of the addresses in it. The result is the place behind it.
fn put_primitive<L: Lookup>(
    tag: u8,
    content: &[u8],
    rules: &SortedRules,
    lookup: &L,
    target: &mut [u8],
    place: usize,
) -> usize
    requires rules { AreRules rules.now }
    requires room { place + 4 * length content.now ≤ length target.old }
    ensures written { target.new
        ≡ with_octets place
        (primitive_renamed (L.image_of lookup.now) rules.now tag content.now)
        target.old }
    ensures end { result
        ≡ place
        + length (primitive_renamed (L.image_of lookup.now) rules.now tag
        content.now) }
    ensures within { result ≤ place + 4 * length content.now }
{
    match tag {
        OBJECT_IDENTIFIER => put_identifier(content, rules, lookup, target, place),
        IP_ADDRESS => put_ip_address(content, lookup, target, place),
        _ => put(content, target, place),
    }
}

// Writes the content of an element with the images of the addresses in it. The result is the place behind it.
#[cycle(writing)]
fn put_content<L: Lookup>(
    element: &Tlv<'_>,
    rules: &SortedRules,
    lookup: &L,
    target: &mut [u8],
    place: usize,
) -> usize
    requires rules { AreRules rules.now }
    requires room { place + 4 * length element.now.content ≤ length target.old }
    ensures written { target.new
        ≡ with_octets place
        (content_renamed (L.image_of lookup.now) rules.now element.now)
        target.old }
    ensures end { result
        ≡ place
        + length (content_renamed (L.image_of lookup.now) rules.now element.now) }
    ensures within { result ≤ place + 4 * length element.now.content }
{
    if is_constructed(element.tag()) {
        put_elements(element.content(), rules, lookup, target, place)
    } else {
        put_primitive(
            element.tag(),
            element.content(),
            rules,
            lookup,
            target,
            place,
        )
    }
}

/// Writes elements at a place, with the images of the addresses in them. The result is the place behind them.
#[cycle(writing)]
pub(crate) fn put_elements<L: Lookup>(
    octets: &[u8],
    rules: &SortedRules,
    lookup: &L,
    target: &mut [u8],
    place: usize,
) -> usize
    requires rules { AreRules rules.now }
    requires room { place + 4 * length octets.now ≤ length target.old }
    ensures written { target.new
        ≡ with_octets place
        (elements_renamed (L.image_of lookup.now) rules.now octets.now)
        target.old }
    ensures end { result
        ≡ place
        + length (elements_renamed (L.image_of lookup.now) rules.now octets.now) }
    ensures within { result ≤ place + 4 * length octets.now }
{
    let mut end = place;
    let mut rest = octets;
    while let Some((element, more)) = next_element(rest) {
        let old = element.content().len();
        let start = end + LEAST_HEAD;
        let new = put_content(&element, rules, lookup, target, start) - start;
        let head = &rest[..rest.len() - more.len() - old];
        end = put_before(head, old, new, target, end);
        rest = more;
    }
    put(rest, target, end)
}
