// A segment and its datagram.
use ipv4_frames::IpView;
use tcp_segments::TcpView;

/// A segment: the octets of its datagram, and what stands in them.
#[derive(Clone, Copy)]
pub struct Segment<'a> {
    pub octets: &'a [u8],
    pub datagram: &'a IpView<'a>,
    pub tcp: &'a TcpView<'a>,
}
