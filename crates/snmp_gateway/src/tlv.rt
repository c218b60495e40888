ghost use Rattle.std.specs.Prelude.{◌≡◌, ◌+◌, ◌<◌, ◌≤◌, option_map, length, IfSome};
ghost use Rattle.snmp_gateway.specs.Element.{Element, element_at, element_with, length_at};

use byteorder::{BigEndian, ByteOrder};
use std::marker::Model;

/// An element: a tag octet, and the octets of its content.
#[derive(Drop)]
pub struct Tlv<'a> {
    tag: u8,
    content: &'a [u8],
}

impl<'a> Model for Tlv<'a> {
    ghost Value = { Element };

    ghost view = { λ t. record { tag = t.tag; content = t.content.now } };
}

impl<'a> Tlv<'a> {
    /// The element that octets begin with, and the octets behind it; None exactly where they begin with none.
    ///
    /// An element is one tag octet, a definite length (X.690, 8.1.3), and so many octets of content. The length is one octet
    /// below 128, or one to four octets behind an octet from 129 to 132 that tells their number. It needn't be the shortest
    /// form.
    #[tactic(auto, unfolding(crate::specs::Element::element_at))]
    pub fn of(octets: &'a [u8]) -> Option<(Tlv<'a>, &'a [u8])>
        ensures value { option_map (λ p. (p.0, p.1.now)) result
            ≡ element_at octets.now }
        ensures size { IfSome result
            (λ p. length p.0.content + length p.1.now + 2 ≤ length octets.now) }
    {
        let (tag, more) = octets.split_first()?;
        let (count, behind) = length_at(more)?;
        if behind.len() < count {
            return None;
        }
        let (content, rest) = behind.split_at(count);
        Some((Tlv { tag: *tag, content }, rest))
    }

    /// The tag octet.
    pub fn tag(&self) -> u8
        ensures { result ≡ self.now.tag }
    {
        self.tag
    }

    /// The content.
    pub fn content(&self) -> &'a [u8]
        ensures { result.now ≡ self.now.content }
    {
        self.content
    }
}

// The length that octets begin with, and the octets behind it.
fn length_at(octets: &[u8]) -> Option<(usize, &[u8])>
    ensures value { option_map (λ p. (p.0, p.1.now)) result ≡ length_at octets.now }
    ensures size { IfSome result (λ p. length p.1.now < length octets.now) }
{
    let (first, more) = octets.split_first()?;
    match *first {
        0..=127 => Some((usize::from(*first), more)),
        129..=132 => {
            let size = usize::from(*first - 128);
            if more.len() < size {
                return None;
            }
            Some((BigEndian::read_uint(more, size) as usize, &more[size..]))
        }
        _ => None,
    }
}
