use gate_base::Addr;
use ipv4_frames::{IpView, TransportFault};
use std::test::Fail;
use tcp_segments::{SegmentFields, TcpView, put_segment};

const CAME: &[u8; 59] = b"\x45\0\0\x3b\0\x02\x40\0\x40\x06\xa8\x0c\x0a\0\0\x05\xc0\xa8\xc8\x01\
    \x9c\x40\0\x15\0\0\x03\xe9\0\0\x13\x89\x50\x18\x20\0\x51\x84\0\0PORT 10,0,0,5,4,1\r\n";

const GOES: &[u8; 61] = b"\x45\0\0\x3d\0\x02\x40\0\x3f\x06\x7c\xa3\xac\x10\x09\x01\x0a\0\0\x05\
    \x9c\x40\0\x15\0\0\x03\xe9\0\0\x13\x89\x50\x18\x20\0\xe6\xe3\0\0PORT 172,16,9,1,4,1\r\n";

#[test]
fn reads_and_writes_segments(rt: HostRuntime) -> Result<(), Fail> {
    let mut target = [0xeeu8; 61];
    if let Ok(ip) = IpView::of(CAME)
        && let Ok(tcp) = TcpView::of(ip.payload(), ip.source(), ip.destination())
    {
        assert!(rt; tcp.ports() == (40_000, 21) && tcp.sequence() == 1001);
        assert!(rt; tcp.acknowledgement() == 5001 && tcp.flags() == 24 && tcp.mss() == 536);
        assert!(rt; tcp.options().is_empty() && tcp.payload().len() == 19);
        let fields = SegmentFields {
            source: Addr(0xac10_0901),
            destination: Addr(0x0a00_0005),
            lifetime: 63,
            sequence: 1001,
            acknowledgement: 5001,
            flags: 24,
        };
        let octets = b"PORT 172,16,9,1,4,1\r\n";
        put_segment(&mut target, ip.header(), tcp.header(), fields, octets);
    }
    assert!(rt; target == *GOES);

    // Four octets of options behind a header, and whether they are refused.
    let cases: [(&[u8; 4], bool); 7] = [
        (b"\x02\x04\x05\xb4", false),
        (b"\x01\x01\x05\x02", false),
        (b"\0\x05\0\x01", false),
        (b"\x01\x01\x05\0", true),
        (b"\x01\x01\x05\x01", true),
        (b"\x01\x05\x04\0", true),
        (b"\x01\x01\x01\x05", true),
    ];
    for (options, refused) in cases {
        let mut segment = [0u8; 24];
        segment[12] = 0x60;
        segment[20..].copy_from_slice(options);
        let found = TcpView::of(&segment, Addr(1), Addr(2));
        assert!(rt; matches!(found, Err(TransportFault::BadTransport)) == refused);
    }
    Ok(())
}
