// Reverse names (RFC 1035, 3.5).
ghost use Rattle.std.specs.Prelude.{◌≡◌, ◌++◌, ◌∷◌, ◌/◌, ◌%◌, [], length, option_map, IfOk, IsSome, OnOk, Some, decimal};
ghost use Rattle.dns_names.specs.Names.{spelled};
ghost use Rattle.dns_names.specs.Reverse.{full_reverse, with_address, is_zone, numbers};
ghost use Rattle.dns_names.specs.Inside.Octets.{label_in, behind, reverse_in};

use crate::name::{Name, ROOM};
use gate_base::{Addr, OutOfMemory, read_number};
use itoa::Buffer;
use std::alloc::{AllocError, Global};

fn first_label(octets: &[u8]) -> Option<(&[u8], &[u8])>
    ensures { option_map (λ p. (p.0.now, p.1.now)) result ≡ label_in octets.now }
{
    let (count, rest) = octets.split_first()?;
    let count = *count as usize;
    if rest.len() < count {
        return None;
    }
    Some((&rest[..count], &rest[count..]))
}

fn is_zone(zone: &[u8], top: &[u8]) -> bool
    ensures { result ≡ is_zone zone.now top.now }
{
    zone.eq_ignore_ascii_case(b"in-addr") && top.eq_ignore_ascii_case(b"arpa")
}

#[tactic(auto, unfolding(crate::specs::Reverse::full_reverse))]
fn address_by(d: &[u8], c: &[u8], b: &[u8], a: &[u8], zone: &[u8], top: &[u8]) -> Option<Addr>
    ensures { option_map (λ address. address.0) result
        ≡ full_reverse (d.now ∷ c.now ∷ b.now ∷ a.now ∷ zone.now ∷ top.now ∷ []) }
{
    let d = read_number(d)?;
    let c = read_number(c)?;
    let b = read_number(b)?;
    let a = read_number(a)?;
    if is_zone(zone, top) {
        Some(Addr(u32::from_be_bytes([a, b, c, d])))
    } else {
        None
    }
}

// Apart, since few names come here.
#[tactic(auto, unfolding(crate::specs::Inside::Octets::reverse_in))]
#[inline(never)]
fn address_of_six(octets: &[u8]) -> Option<Addr>
    ensures { option_map (λ address. address.0) result ≡ reverse_in octets.now }
{
    let (d, rest) = first_label(octets)?;
    let (c, rest) = first_label(rest)?;
    let (b, rest) = first_label(rest)?;
    let (a, rest) = first_label(rest)?;
    let (zone, rest) = first_label(rest)?;
    let (top, rest) = first_label(rest)?;
    if rest.is_empty() {
        address_by(d, c, b, a, zone, top)
    } else {
        None
    }
}

#[tactic(auto, unfolding(crate::specs::Inside::Octets::reverse_in))]
fn address_in(octets: &[u8]) -> Option<Addr>
    ensures { option_map (λ address. address.0) result ≡ reverse_in octets.now }
{
    // most names begin with no number
    let (d, _rest) = first_label(octets)?;
    let _number = read_number(d)?;
    address_of_six(octets)
}

/// The address of a full reverse name, as 5.0.0.10.in-addr.arpa is 10.0.0.5's. Such a name has four decimal numbers from 0 to 255
/// without leading zeros, the low octet first, and then in-addr and arpa in any case. None for any other name.
pub fn address_of(name: &Name) -> Option<Addr>
    ensures { option_map (λ address. address.0) result ≡ full_reverse name.now }
{
    address_in(name.octets())
}

/// What stands behind the first label.
pub(crate) fn behind_label(octets: &[u8]) -> &[u8]
    ensures { result.now ≡ behind octets.now }
{
    match octets {
        [] => octets,
        [count, rest @ ..] => {
            let count = *count as usize;
            if count < rest.len() {
                &rest[count..]
            } else {
                &[]
            }
        }
    }
}

/// Writes a number as a label.
fn put_number(octets: &mut Vec<u8>, number: u8) -> Result<(), AllocError>
    ensures { OnOk result (octets.new.items
        ≡ octets.old.items ++ (length (decimal number) ∷ decimal number)) }
{
    let mut digits = Buffer::new();
    let label = digits.format(number).as_bytes();
    octets.push(label.len() as u8)?;
    octets.extend_from_slice(label)?;
    Ok(())
}

/// Writes the four numbers of an address, the low octet first.
fn put_numbers(octets: &mut Vec<u8>, address: u32) -> Result<(), AllocError>
    ensures { OnOk result
        (octets.new.items ≡ octets.old.items ++ spelled (numbers address)) }
{
    put_number(octets, (address % 256) as u8)?;
    put_number(octets, (address / 256 % 256) as u8)?;
    put_number(octets, (address / 65_536 % 256) as u8)?;
    put_number(octets, (address / 16_777_216) as u8)?;
    Ok(())
}

/// The reverse name of an address, with the last two labels of an old reverse name as they are spelled there.
pub fn reverse_of(alloc: Global, address: Addr, old: &Name) -> Result<Name, OutOfMemory>
    requires { IsSome (full_reverse old.now) }
    ensures exact { IfOk result (λ name. name ≡ with_address address.0 old.now) }
    // It is a name of that address.
    ensures again { IfOk result (λ name. full_reverse name ≡ Some address.0) }
{
    let places = old.places.of_image(alloc);
    let mut octets = Vec::with_capacity(alloc, ROOM)?;
    put_numbers(&mut octets, address.0)?;
    let zone = behind_label(behind_label(behind_label(behind_label(old.octets()))));
    octets.extend_from_slice(zone)?;
    Ok(Name { octets, places })
}
