ghost use Rattle.std.specs.Prelude.{◌≡◌, ◌≤◌, length};
ghost use Rattle.ipv4_frames.specs.Ipv4.{Datagram, IsPlainHead, fields_of, header_length_of, is_not_ipv4, has_bad_header, has_bad_header_sum, is_fragment, has_options, read_datagram};

use crate::IpFault;
use gate_base::{Addr, get_u16, get_u32};
use inet_sum::sum;
use std::marker::Model;

/// A datagram's header of 20 octets and its payload, which ends at the total length.
#[derive(Drop)]
pub struct IpView<'a> {
    header: &'a [u8],
    payload: &'a [u8],
}

impl<'a> Model for IpView<'a> {
    ghost Value = { Datagram };

    ghost view = { λ v. fields_of v.header.now v.payload.now };

    ghost invariant = { (λ v. (length v.header.now ≡ 20) × (length v.payload.now ≤ 65515) × IsPlainHead v.header.now) };
}

impl<'a> IpView<'a> {
    /// The datagram at the front of these octets, or the first fault.
    #[tactic(auto, unfolding(crate::specs::Ipv4::read_datagram))]
    #[inline(always)]
    pub fn of(octets: &'a [u8]) -> Result<IpView<'a>, IpFault>
        ensures { result ≡ read_datagram octets.now }
    {
        if is_not_ipv4(octets) {
            Err(IpFault::NotIpv4)
        } else if has_bad_header(octets) {
            Err(IpFault::BadHeader)
        } else if has_bad_header_sum(octets) {
            Err(IpFault::BadHeaderSum)
        } else if is_fragment(octets) {
            Err(IpFault::Fragment)
        } else if has_options(octets) {
            Err(IpFault::IpOptions)
        } else {
            let total = usize::from(get_u16(octets, 2));
            Ok(IpView {
                header: &octets[..20],
                payload: &octets[20..total],
            })
        }
    }

    /// The sender's address.
    pub fn source(&self) -> Addr
        ensures { result.0 ≡ self.now.source }
    {
        Addr(get_u32(self.header, 12))
    }

    /// The receiver's address.
    pub fn destination(&self) -> Addr
        ensures { result.0 ≡ self.now.destination }
    {
        Addr(get_u32(self.header, 16))
    }

    /// The number of the protocol above: 1 is ICMP, 6 is TCP, 17 is UDP.
    pub fn protocol(&self) -> u8
        ensures { result ≡ self.now.protocol }
    {
        self.header[9]
    }

    /// How many gateways the datagram may still pass, its time to live.
    pub fn lifetime(&self) -> u8
        ensures { result ≡ self.now.lifetime }
    {
        self.header[8]
    }

    /// The header's 20 octets.
    pub fn header(&self) -> &'a [u8]
        ensures octets { result.now ≡ self.now.header }
        ensures count { length result.now ≡ 20 }
        ensures plain { IsPlainHead result.now }
    {
        self.header
    }

    /// The octets from the header up to the total length: at most 65,515.
    pub fn payload(&self) -> &'a [u8]
        ensures octets { result.now ≡ self.now.payload }
        ensures count { length result.now ≤ 65515 }
    {
        self.payload
    }
}

fn is_not_ipv4(octets: &[u8]) -> bool
    ensures { result ≡ is_not_ipv4 octets.now }
{
    match octets {
        [first, ..] => *first / 16 != 4,
        _ => true,
    }
}

fn has_bad_header(octets: &[u8]) -> bool
    ensures { result ≡ has_bad_header octets.now }
{
    if octets.len() < 20 {
        return true;
    }
    let header = header_length(octets);
    let total = usize::from(get_u16(octets, 2));
    header < 20 || total < header || octets.len() < total
}

fn header_length(octets: &[u8]) -> usize
    requires { 20 ≤ length octets.now }
    ensures { result ≡ header_length_of octets.now }
{
    usize::from(octets[0] % 16) * 4
}

fn has_bad_header_sum(octets: &[u8]) -> bool
    requires long { 20 ≤ length octets.now }
    requires whole { header_length_of octets.now ≤ length octets.now }
    ensures { result ≡ has_bad_header_sum octets.now }
{
    sum(&octets[..header_length(octets)]) != 0
}

fn is_fragment(octets: &[u8]) -> bool
    requires { 20 ≤ length octets.now }
    ensures { result ≡ is_fragment octets.now }
{
    get_u16(octets, 6) & 0x3fff != 0
}

fn has_options(octets: &[u8]) -> bool
    requires { 20 ≤ length octets.now }
    ensures { result ≡ has_options octets.now }
{
    header_length(octets) != 20
}
