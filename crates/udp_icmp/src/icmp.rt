ghost use Rattle.std.specs.Prelude.{◌≡◌, ◌≤◌, Ok, length};
ghost use Rattle.udp_icmp.specs.Icmp.{Icmp, icmp_fields_of, read_icmp, sealed_icmp};

use inet_sum::sum;
use ipv4_frames::TransportFault;
use std::marker::Model;

/// An ICMP message of at least 8 octets.
#[derive(Drop)]
pub struct IcmpView<'a> {
    message: &'a [u8],
}

impl<'a> Model for IcmpView<'a> {
    ghost Value = { Icmp };

    ghost view = { λ v. icmp_fields_of v.message.now };

    ghost invariant = { (λ v. 8 ≤ length v.message.now) };
}

impl<'a> IcmpView<'a> {
    /// The ICMP message that a payload is, or the first fault. Any type passes.
    #[tactic(auto, unfolding(crate::specs::Icmp::read_icmp))]
    pub fn of(payload: &'a [u8]) -> Result<IcmpView<'a>, TransportFault>
        ensures { result ≡ read_icmp payload.now }
    {
        if payload.len() < 8 {
            Err(TransportFault::BadTransport)
        } else if sum(payload) != 0 {
            Err(TransportFault::BadSum)
        } else {
            Ok(IcmpView { message: payload })
        }
    }

    /// The type, as 0 for an echo reply and 8 for an echo.
    pub fn kind(&self) -> u8
        ensures { result ≡ self.now.kind }
    {
        self.message[0]
    }

    /// Whether the type is one of the errors that hold a datagram: destination unreachable (3), source quench (4),
    /// time exceeded (11) and parameter problem (12).
    pub fn is_error(&self) -> bool
        ensures { result ≡ self.now.is_error }
    {
        matches!(self.message[0], 3 | 4 | 11 | 12)
    }

    /// The octets behind the first 8: in an error the datagram that it is about.
    pub fn inner(&self) -> &'a [u8]
        ensures { result.now ≡ self.now.inner }
    {
        &self.message[8..]
    }
}

/// A message with its checksum made right is read with the type and the inner octets that it had.
pub fn sealed_icmp_is_right(message: &[u8])
    requires { 8 ≤ length message.now }
    ensures { read_icmp (sealed_icmp message.now) ≡ Ok (icmp_fields_of message.now) }
{}
