ghost use Rattle.std.specs.Prelude.{◌≡◌, false, ◌≤◌, Ok, length};
ghost use Rattle.std.specs.Bool.{OnFalse};
ghost use Rattle.gate_base.specs.declared.protocol.TheConstants.{LONGEST_DATAGRAM};
ghost use Rattle.udp_icmp.specs.Udp.{Udp, udp_fields_of, has_bad_length, has_bad_sum, read_udp, sealed_udp};

use gate_base::{Addr, UDP, get_u16};
use inet_sum::pseudo_sum;
use ipv4_frames::TransportFault;
use std::marker::Model;

/// A UDP datagram of at least 8 octets.
#[derive(Drop)]
pub struct UdpView<'a> {
    segment: &'a [u8],
}

impl<'a> Model for UdpView<'a> {
    ghost Value = { Udp };

    ghost view = { λ v. udp_fields_of v.segment.now };

    ghost invariant = { (λ v. 8 ≤ length v.segment.now) };
}

impl<'a> UdpView<'a> {
    /// The UDP datagram that a payload between these addresses is, or the first fault.
    #[tactic(auto, unfolding(crate::specs::Udp::read_udp))]
    #[inline(always)]
    pub fn of(
        payload: &'a [u8],
        source: Addr,
        destination: Addr,
    ) -> Result<UdpView<'a>, TransportFault>
        ensures { result ≡ read_udp payload.now source.0 destination.0 }
    {
        if has_bad_length(payload) {
            Err(TransportFault::BadTransport)
        } else if has_bad_sum(payload, source, destination) {
            Err(TransportFault::BadSum)
        } else {
            Ok(UdpView { segment: payload })
        }
    }

    /// The source port and the destination port.
    pub fn ports(&self) -> (u16, u16)
        ensures source { result.0 ≡ self.now.source_port }
        ensures destination { result.1 ≡ self.now.destination_port }
    {
        (get_u16(self.segment, 0), get_u16(self.segment, 2))
    }

    /// Whether the sender made a checksum: it is false exactly where the field is 0.
    pub fn has_sum(&self) -> bool
        ensures { result ≡ self.now.has_sum }
    {
        get_u16(self.segment, 6) != 0
    }

    /// The octets behind the header.
    pub fn payload(&self) -> &'a [u8]
        ensures { result.now ≡ self.now.payload }
    {
        &self.segment[8..]
    }
}

fn has_bad_length(segment: &[u8]) -> bool
    ensures value { result ≡ has_bad_length segment.now }
    ensures right { OnFalse result
        ((8 ≤ length segment.now) × (length segment.now ≤ LONGEST_DATAGRAM)) }
{
    segment.len() < 8 || usize::from(get_u16(segment, 4)) != segment.len()
}

#[inline(always)]
fn has_bad_sum(segment: &[u8], source: Addr, destination: Addr) -> bool
    requires long { 8 ≤ length segment.now }
    requires short { length segment.now ≤ LONGEST_DATAGRAM }
    ensures { result ≡ has_bad_sum source.0 destination.0 segment.now }
{
    get_u16(segment, 6) != 0 && pseudo_sum(source, destination, UDP, segment) != 0
}

/// A segment with its checksum made right for these addresses is read with the ports and the payload that it had.
pub fn sealed_udp_is_right(segment: &[u8], source: u32, destination: u32)
    requires { has_bad_length segment.now ≡ false }
    ensures { read_udp (sealed_udp source destination segment.now) source destination
        ≡ Ok (udp_fields_of segment.now) }
{}
