use gate_base::{Addr, get_u32};
use ipv4_frames::IpView;
use resegment::{Datagrams, SegmentModel, piece, pieces};
use std::test::Fail;
use tcp_segments::{TcpView, flags_of};

const CAME: &[u8; 59] = b"\x45\0\0\x3b\0\x02\x40\0\x40\x06\xa8\x0c\x0a\0\0\x05\xc0\xa8\xc8\x01\
    \x9c\x40\0\x15\0\0\x03\xe9\0\0\x13\x89\x50\x18\x20\0\x51\x84\0\0PORT 10,0,0,5,4,1\r\n";

#[test]
fn cuts_at_a_small_segment_size(rt: HostRuntime) -> Result<(), Fail> {
    assert!(rt; pieces(100, 88) == 2 && piece(100, 88, 1) == (88, 100));
    let mut out = Datagrams::new(rt.alloc())?;
    if let Ok(ip) = IpView::of(CAME)
        && let Ok(tcp) = TcpView::of(ip.payload(), ip.source(), ip.destination())
        && tcp.header().len() == 20
    {
        let model = SegmentModel {
            ip: ip.header(),
            tcp: tcp.header(),
            source: Addr(0xac10_0901),
            destination: Addr(0x0a00_0005),
            lifetime: 63,
            sequence: 1001,
            acknowledgement: 5001,
            flags: flags_of(24),
        };
        out.put_pieces(&model, &[b'x'; 100], 88);
    }
    assert!(rt; out.len() == 2);
    if out.len() == 2 {
        let (first, last) = (out.datagram(0), out.datagram(1));
        assert!(rt; first.len() == 128 && first[33] == 16 && get_u32(first, 24) == 1001);
        assert!(rt; last.len() == 52 && last[33] == 24 && get_u32(last, 24) == 1089);
    }
    Ok(())
}
