// Object identifiers, the addresses in them, and other addresses in their place (RFC 2962, 4.2).
ghost use Rattle.std.specs.Prelude.{◌≡◌, ◌+◌, ◌*◌, ◌^◌, ◌<◌, ◌≤◌, length, drop, option_map, option_and_then, IfSome};
ghost use Rattle.snmp_oids.specs.Arcs.{address_of, arcs_of, named_in};
ghost use Rattle.gate_base.specs.Prelude.{AreRules};
ghost use Rattle.snmp_oids.specs.Identifier.{place_behind, arc_octets, address_octets, change_at, change_of, changed, identifier_renamed};
ghost use Rattle.snmp_oids.specs.Inside.Written.{with_octets};

use crate::arcs::{address_of, compare_content, has_arcs};
use crate::numbers::Numbers;
use crate::put::put;
use gate_base::{Addr, OidRule};
use oid_rules::{Addresses, Compared, Identifier, SortedRules};
use snmp_gateway::Lookup;

/// The address that is to stand in place of the octets from a start to an end.
#[derive(Clone, Copy)]
pub(crate) struct Change {
    start: usize,
    end: usize,
    address: Addr,
}

/// The address in the content of an OBJECT IDENTIFIER (X.690, 8.19), by rules.
///
/// Each rule has 2 to 64 arcs. The first is at most 2. The second is at most 39 if the first is 0 or 1, and at most 4,294,967,215 if
/// it is 2. A rule skips at most 127 arcs. A rule fits if the content begins with its arcs, and if at least four more follow those
/// that it skips, each of the first four at most 255. The first rule in order that fits names the address of these four.
///
/// None exactly where no rule fits. No rule fits content without arcs: its last octet has the high bit, or a sub-identifier begins
/// with 0x80 or is above 4,294,967,295.
pub fn address_in(content: &[u8], rules: &SortedRules) -> Option<Addr>
    requires { AreRules rules.now }
    ensures { option_map (λ a. a.0) result
        ≡ option_map (λ found. found.1) (named_in rules.now content.now) }
{
    let (_, address) = named_in(content, rules)?;
    Some(address)
}

// How many arcs stand before the address that the rules name, and that address.
fn named_in(content: &[u8], rules: &SortedRules) -> Option<(usize, Addr)>
    requires { AreRules rules.now }
    ensures value { option_map (λ p. (p.0, p.1.0)) result
        ≡ named_in rules.now content.now }
{
    let (rule, address) = rules.first(&OidContent { octets: content })?;
    Some((rule.prefix.items().len() + rule.skip as usize, address))
}

// The content of an OBJECT IDENTIFIER.
#[derive(Drop)]
struct OidContent<'a> {
    octets: &'a [u8],
}

impl<'a> Addresses for OidContent<'a> {
    ghost use Rattle.std.specs.Prelude.{drop, option_and_then};
    ghost use Rattle.snmp_oids.specs.Arcs.{arcs_of, address_of};

    ghost address_by = { λ content place. option_and_then (λ arcs. address_of (drop place arcs)) (arcs_of content.octets.now) };

    fn address(&self, before: usize) -> Option<Addr> {
        address_behind(self.octets, before)
    }
}

impl<'a> Identifier for OidContent<'a> {
    ghost use Rattle.snmp_oids.specs.Arcs.{arcs_of};

    ghost arcs_of = { λ content. arcs_of content.octets.now };

    type Read = Numbers;

    fn compare(&self, rule: &OidRule) -> Compared {
        compare_content(self.octets, rule.prefix.items())
    }

    fn read(&self) -> Option<Numbers> {
        Numbers::of(self.octets)
    }
}

// The address that four arcs make behind so many arcs of content, if it has any.
fn address_behind(content: &[u8], before: usize) -> Option<Addr>
    requires { 2 ≤ before }
    ensures { option_map (λ a. a.0) result
        ≡ option_and_then (λ arcs. address_of (drop before arcs))
        (arcs_of content.now) }
{
    if !has_arcs(content) {
        return None;
    }
    let start = place_behind(before - 1, content);
    address_of(&content[start..])
}

// How many octets so many sub-identifiers take, or fewer of them that fill octets.
fn place_behind(count: usize, octets: &[u8]) -> usize
    ensures value { result ≡ place_behind count octets.now }
    ensures within { result ≤ length octets.now }
{
    let mut left = count;
    for (place, octet) in octets.iter().enumerate() {
        if left == 0 {
            return place;
        }
        if *octet < 128 {
            left -= 1;
        }
    }
    octets.len()
}

// What is to change in content: the address that the rules name, if it has an image.
fn change_of<L: Lookup>(content: &[u8], rules: &SortedRules, lookup: &L) -> Option<Change>
    requires { AreRules rules.now }
    ensures value { result ≡ change_of (L.image_of lookup.now) rules.now content.now }
    ensures within { IfSome result
        (λ change. change.start + 4 ≤ change.end × change.end ≤ length content.now) }
{
    let (before, address) = named_in(content, rules)?;
    let address = lookup.image(address)?;
    let start = place_behind(before - 1, content);
    let end = start + place_behind(4, &content[start..]);
    Some(Change {
        start,
        end,
        address,
    })
}

// Writes an arc of at most 255 in the fewest octets at a place. The result is the place behind it.
fn put_arc(arc: u8, target: &mut [u8], place: usize) -> usize
    requires { place + length (arc_octets arc) ≤ length target.old }
    ensures written { target.new ≡ with_octets place (arc_octets arc) target.old }
    ensures end { result ≡ place + length (arc_octets arc) }
    ensures within { result ≤ place + 2 }
{
    if arc < 128 {
        put(&[arc], target, place)
    } else {
        put(&[128 + arc / 128, arc % 128], target, place)
    }
}

// Writes the four arcs of an address at a place. The result is the place behind them.
fn put_address(address: Addr, target: &mut [u8], place: usize) -> usize
    requires { place + length (address_octets address.0) ≤ length target.old }
    ensures written { target.new
        ≡ with_octets place (address_octets address.0) target.old }
    ensures end { result ≡ place + length (address_octets address.0) }
    ensures within { result ≤ place + 8 }
{
    let [a, b, c, d] = address.0.to_be_bytes();
    let place = put_arc(a, target, place);
    let place = put_arc(b, target, place);
    let place = put_arc(c, target, place);
    put_arc(d, target, place)
}

/// Writes content at a place, with the image of the address in its place. The result is the place behind it.
pub(crate) fn put_identifier<L: Lookup>(
    content: &[u8],
    rules: &SortedRules,
    lookup: &L,
    target: &mut [u8],
    place: usize,
) -> usize
    requires rules { AreRules rules.now }
    requires room { place + 4 * length content.now ≤ length target.old }
    ensures written { target.new
        ≡ with_octets place
        (identifier_renamed (L.image_of lookup.now) rules.now content.now)
        target.old }
    ensures end { result
        ≡ place
        + length
        (identifier_renamed (L.image_of lookup.now) rules.now content.now) }
    ensures within { result ≤ place + 4 * length content.now }
{
    match change_of(content, rules, lookup) {
        Some(change) => put_changed(content, change, target, place),
        None => put(content, target, place),
    }
}

// Writes content with a change at a place. The result is the place behind it.
fn put_changed(content: &[u8], change: Change, target: &mut [u8], place: usize) -> usize
    requires order { change.start ≤ change.end }
    requires end { change.end ≤ length content.now }
    requires room { place + length (changed content.now change) ≤ length target.old }
    ensures written { target.new
        ≡ with_octets place (changed content.now change) target.old }
    ensures end { result ≡ place + length (changed content.now change) }
{
    let place = put(&content[..change.start], target, place);
    let place = put_address(change.address, target, place);
    put(&content[change.end..], target, place)
}
