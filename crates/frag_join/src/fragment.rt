// Fragments, as views of the frames that carry them.
ghost use Rattle.std.specs.Prelude.{◌≡◌, ◌≤◌, ◌+◌, ◌%◌, ◌<◌, IfSome, true, false, is_some, length, slice_index};
ghost use Rattle.gate_base.specs.Prelude.{event_of};
ghost use Rattle.ipv4_frames.specs.Ipv4.{has_bad_header, has_options, is_fragment as is_part};
ghost use Rattle.frag_join.specs.Fragments as fragments;
ghost use Rattle.frag_join.specs.Coverage.{is_torn};

use crate::part::Name;
use ether_frames::octets_in;
use gate_base::{Addr, Event, LONGEST_DATAGRAM, Side, get_u16, get_u32};
use ipv4_frames::{IpFault, IpView};
use std::marker::Model;

/// A fragment: its header without options, the place of the datagram's payload at which its own payload starts, that
/// payload, and whether more fragments follow behind it (RFC 791, 3.1).
#[derive(Drop)]
pub struct FragmentView<'a> {
    header: &'a [u8],
    start: usize,
    payload: &'a [u8],
    more: bool,
}

impl<'a> Model for FragmentView<'a> {
    ghost use Rattle.std.specs.Prelude.{◌≡◌, ◌%◌, ◌<◌, length};
    ghost use Rattle.frag_join.specs.Fragments.{Fragment};

    ghost Value = { Fragment };

    ghost view = { λ f. record { header = f.header.now; start = f.start; payload = f.payload.now; more = f.more } };

    ghost invariant = { (λ f. (length f.header.now ≡ 20) × (f.start % 8 ≡ 0) × (f.start < 65536) × (length f.payload.now < 65536)) };
}

impl<'a> FragmentView<'a> {
    /// The fragment at the front of a datagram's octets.
    pub fn of(octets: &'a [u8]) -> FragmentView<'a>
        requires header { has_bad_header octets.now ≡ false }
        requires plain { has_options octets.now ≡ false }
        ensures { result ≡ fragments.fragment_of octets.now }
    {
        let total = usize::from(get_u16(octets, 2));
        let place = get_u16(octets, 6);
        FragmentView {
            header: &octets[..20],
            start: usize::from(place % 0x2000) * 8,
            payload: &octets[20..total],
            more: place / 0x2000 % 2 == 1,
        }
    }

    /// The 20 octets of the header.
    pub fn header(&self) -> &'a [u8]
        ensures octets { result.now ≡ self.now.header }
        ensures count { length result.now ≡ 20 }
    {
        self.header
    }

    /// The place of the datagram's payload at which its own starts: a multiple of 8, below 65,536.
    pub fn start(&self) -> usize
        ensures place { result ≡ self.now.start }
        ensures even { self.now.start % 8 ≡ 0 }
        ensures small { self.now.start < 65536 }
    {
        self.start
    }

    /// The octets behind the header.
    pub fn payload(&self) -> &'a [u8]
        ensures octets { result.now ≡ self.now.payload }
        ensures count { length self.now.payload < 65536 }
    {
        self.payload
    }

    /// Whether more fragments follow behind it: the flag MF.
    pub fn more(&self) -> bool
        ensures { result ≡ self.now.more }
    {
        self.more
    }

    /// The place behind its last octet.
    pub fn end(&self) -> usize
        ensures { result ≡ fragments.end_of self.now }
    {
        self.start + self.payload.len()
    }

    /// Whether it contradicts itself: it has no payload, or ends inside a unit of 8 octets though more follow, or reaches
    /// past the longest datagram.
    pub fn is_torn(&self) -> bool
        ensures { result ≡ is_torn self.now }
    {
        let count = self.payload.len();
        count == 0 || (self.more && count % 8 != 0) || 20 + self.end() > LONGEST_DATAGRAM
    }
}

/// The octets of the datagram of which a frame carries a fragment: those of a frame whose first fault is that it does.
pub fn fragment_octets<'a>(event: &Event<'a>) -> Option<&'a [u8]>
    ensures is { is_some result ≡ fragments.is_fragment (event_of event.now) }
    ensures octets { IfSome result
        (λ octets. octets.now ≡ fragments.octets_of (event_of event.now)) }
    ensures header { IfSome result (λ octets. has_bad_header octets.now ≡ false) }
{
    let octets = octets_in(event);
    if event.whole && is_fragment(octets) {
        Some(octets)
    } else {
        None
    }
}

// Most datagrams aren't, which is found without the sum of their header.
fn is_fragment(octets: &[u8]) -> bool
    ensures { result ≡ fragments.is_fragment_at octets.now }
{
    if octets.len() < 20 || !is_part(octets) {
        return false;
    }
    matches!(IpView::of(octets), Err(IpFault::Fragment))
}

// Whether more fragments follow, or others stand in front.
fn is_part(octets: &[u8]) -> bool
    requires { 20 ≤ length octets.now }
    ensures { result ≡ is_part octets.now }
{
    get_u16(octets, 6) & 0x3fff != 0
}

/// What a fragment has in common with the others of its datagram.
pub fn name_of(side: Side, octets: &[u8]) -> Name
    requires { has_bad_header octets.now ≡ false }
    ensures { result ≡ fragments.name_of side octets.now }
{
    Name {
        side,
        source: Addr(get_u32(octets, 12)),
        destination: Addr(get_u32(octets, 16)),
        protocol: octets[9],
        identification: get_u16(octets, 4),
    }
}

/// Whether the header is longer than its fixed part.
pub fn has_options(octets: &[u8]) -> bool
    requires { has_bad_header octets.now ≡ false }
    ensures { result ≡ has_options octets.now }
{
    octets[0] % 16 != 5
}
