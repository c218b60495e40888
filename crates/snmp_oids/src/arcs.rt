// The arcs of an object identifier, read from its content without memory (X.690, 8.19).
ghost use Rattle.std.specs.Prelude.{◌≡◌, ◌≤◌, ◌==◌, ◌&&◌, nat_lt, [], ◌∷◌, length, is_some, option_map, IsSome, IfSome, IfNone};
ghost use Rattle.oid_rules.specs.Sorted.{compared};
ghost use Rattle.snmp_oids.specs.Arcs.{joined, numbers_of, first_two, arcs_of, small_first, address_of};
ghost use Rattle.snmp_oids.specs.Inside.Arcs.{numbers_in, arcs_in};

use gate_base::Addr;
use oid_rules::{Compared, order_of};

// A sub-identifier's number with the seven bits of one more octet behind it, where it is 0 before the first. None where it
// begins with 128, or is above 4,294,967,295.
fn joined(so_far: u32, octet: u8) -> Option<u32>
    ensures { result ≡ joined so_far octet }
{
    let number = 128 * u64::from(so_far) + u64::from(octet % 128);
    if (so_far == 0 && octet == 128) || number > u64::from(u32::MAX) {
        None
    } else {
        Some(number as u32)
    }
}

/// The number of the sub-identifier that octets begin with, and the octets behind it.
pub(crate) fn next_number(octets: &[u8]) -> Option<(u32, &[u8])>
    ensures found { IfSome result (λ p. numbers_of octets.now
        ≡ option_map (λ numbers. p.0 ∷ numbers) (numbers_of p.1.now)) }
    ensures none { IfNone result
        (IsSome (numbers_of octets.now) → numbers_of octets.now ≡ Some []) }
{
    if let Some((octet, rest)) = octets.split_first()
        && *octet < 128
    {
        return Some((u32::from(*octet), rest));
    }
    let mut number = 0;
    for (place, octet) in octets.iter().enumerate() {
        number = joined(number, *octet)?;
        if *octet < 128 {
            return Some((number, &octets[place + 1..]));
        }
    }
    None
}

// Whether an octet is a sub-identifier by itself.
fn is_whole(so_far: u32, octet: u8) -> bool
    ensures { result ≡ (so_far == 0 && nat_lt octet 128) }
{
    so_far == 0 && octet < 128
}

/// Whether content has arcs: sub-identifiers fill it.
pub(crate) fn has_arcs(content: &[u8]) -> bool
    ensures { result ≡ is_some (arcs_of content.now) }
{
    let mut number = 0;
    for octet in content {
        if is_whole(number, *octet) {
            continue;
        }
        match joined(number, *octet) {
            Some(more) => number = if *octet < 128 { 0 } else { more },
            None => return false,
        }
    }
    number == 0
}

// The two arcs for which the first sub-identifier stands.
fn first_two(number: u32) -> (u32, u32)
    ensures { result ≡ first_two number }
{
    if number < 40 {
        (0, number)
    } else if number < 80 {
        (1, number - 40)
    } else {
        (2, number - 80)
    }
}

/// Where the arcs of content, if it has any, stand to a prefix of at least two arcs.
pub(crate) fn compare_content(content: &[u8], prefix: &[u32]) -> Compared
    requires { 2 ≤ length prefix.now }
    ensures { IsSome (arcs_of content.now)
        → result ≡ compared (arcs_in content.now) prefix.now }
{
    let Some((number, rest)) = next_number(content) else {
        return Compared::Before;
    };
    let (first, second) = first_two(number);
    if first != prefix[0] {
        order_of(first, prefix[0])
    } else if second != prefix[1] {
        order_of(second, prefix[1])
    } else {
        compare_numbers(rest, &prefix[2..])
    }
}

// Where the numbers of the sub-identifiers that fill octets, if any do, stand to these.
fn compare_numbers(octets: &[u8], numbers: &[u32]) -> Compared
    ensures { IsSome (numbers_of octets.now)
        → result ≡ compared (numbers_in octets.now) numbers.now }
{
    let mut rest = octets;
    for number in numbers {
        let Some((other, more)) = next_number(rest) else {
            return Compared::Before;
        };
        if other != *number {
            return order_of(other, *number);
        }
        rest = more;
    }
    Compared::Begins
}

// The number of the sub-identifier that octets begin with, if it is at most 255, and the octets behind it.
fn next_small(octets: &[u8]) -> Option<(u8, &[u8])>
    requires { IsSome (numbers_of octets.now) }
    ensures value { option_map (λ p. (p.0, numbers_in p.1.now)) result
        ≡ small_first (numbers_in octets.now) }
    ensures rest { IfSome result (λ p. IsSome (numbers_of p.1.now)) }
{
    let (number, rest) = next_number(octets)?;
    if number <= 255 {
        Some((number as u8, rest))
    } else {
        None
    }
}

/// The address that the first four of the sub-identifiers make which fill octets, if each of them is at most 255.
pub(crate) fn address_of(octets: &[u8]) -> Option<Addr>
    requires { IsSome (numbers_of octets.now) }
    ensures { option_map (λ a. a.0) result ≡ address_of (numbers_in octets.now) }
{
    let (first, rest) = next_small(octets)?;
    let (second, rest) = next_small(rest)?;
    let (third, rest) = next_small(rest)?;
    let (fourth, _) = next_small(rest)?;
    Some(Addr(u32::from_be_bytes([first, second, third, fourth])))
}
