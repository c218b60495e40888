// A UDP datagram.

/// The octets of a UDP datagram, and of those what it carries.
#[derive(Clone, Copy)]
pub struct UdpDatagram<'a> {
    pub octets: &'a [u8],
    pub payload: &'a [u8],
}
