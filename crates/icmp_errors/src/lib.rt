//! The datagram that an ICMP error is about: the front of it, which stands behind the error's first 8 octets (RFC 792).
#![tactic(auto)]

ghost use Rattle.std.specs.Prelude.{◌≡◌, ◌≤◌, ◌<◌, ◌^◌, Ok, IsTrue, IfSome, length, take};
ghost use Rattle.inet_sum.specs.Sum.{IsRight};
ghost use Rattle.icmp_errors.specs.Inner.{is_inner, inner_fields, read_inner, numbered, inner_with, fields_with};

use gate_base::{Addr, get_u16, get_u32, put_u16, put_u32};
use inet_sum::sum;

/// An ICMP error holds no datagram that can be read.
#[derive(Clone, Copy, Debug, PartialEq, Eq)]
pub struct BadInner;

/// What is known of a datagram inside an ICMP error.
#[derive(Clone, Copy, Debug, PartialEq, Eq)]
pub struct Inner {
    pub source: Addr,
    pub destination: Addr,
    /// The number of the protocol above: 6 is TCP, 17 is UDP.
    pub protocol: u8,
    /// The source port and the destination port of TCP or UDP, and of other protocols whatever stands there.
    pub ports: (u16, u16),
    /// The sequence number of TCP, and of other protocols whatever stands there.
    pub sequence: u32,
}

/// The datagram inside an ICMP error. It is of version 4, its header has 20 octets, it is no later fragment, and at least
/// 8 octets follow the header; any other is refused. Its checksums aren't tested.
pub fn inner_of(inner: &[u8]) -> Result<Inner, BadInner>
    ensures { result ≡ read_inner inner.now }
{
    if !is_inner(inner) {
        return Err(BadInner);
    }
    Ok(Inner {
        source: Addr(get_u32(inner, 12)),
        destination: Addr(get_u32(inner, 16)),
        protocol: inner[9],
        ports: (get_u16(inner, 20), get_u16(inner, 22)),
        sequence: get_u32(inner, 24),
    })
}

fn is_inner(inner: &[u8]) -> bool
    ensures value { result ≡ is_inner inner.now }
    ensures long { IsTrue result → 28 ≤ length inner.now }
{
    if inner.len() < 28 {
        return false;
    }
    inner[0] / 16 == 4 && inner[0] % 16 == 5 && get_u16(inner, 6) % 8192 == 0
}

/// Gives the datagram inside an ICMP error these addresses, this sequence number, if one is given, and a right header
/// checksum. All else stays, the transport's checksum too.
#[tactic(auto, unfolding(crate::specs::Inner::inner_with))]
pub fn put_inner(inner: &mut [u8], source: Addr, destination: Addr, sequence: Option<u32>)
    requires { IsTrue (is_inner inner.old) }
    ensures { inner.new ≡ inner_with inner.old source.0 destination.0 sequence }
{
    put_u16(inner, 10, 0);
    put_u32(inner, 12, source.0);
    put_u32(inner, 16, destination.0);
    put_sequence(inner, sequence);
    let checksum = sum(&inner[..20]);
    put_u16(inner, 10, checksum);
}

fn put_sequence(inner: &mut [u8], sequence: Option<u32>)
    requires { 28 ≤ length inner.old }
    ensures { inner.new ≡ numbered sequence inner.old }
{
    if let Some(sequence) = sequence {
        put_u32(inner, 24, sequence);
    }
}

/// What `put_inner` writes reads back with these fields and the others that it had, and its header's checksum is right.
pub fn inner_reads_back(inner: &[u8], source: u32, destination: u32, sequence: Option<u32>)
    requires inner { IsTrue (is_inner inner.now) }
    requires number { IfSome sequence (λ n. n < 2 ^ 32) }
    ensures read { read_inner (inner_with inner.now source destination sequence)
        ≡ Ok (fields_with (inner_fields inner.now) source destination sequence) }
    ensures right { IsRight
        (take 20 (inner_with inner.now source destination sequence)) }
{}
