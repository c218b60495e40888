use gate_base::Addr;
use ipv4_frames::TransportFault;
use std::test::Fail;
use udp_icmp::{IcmpView, UdpView};

#[test]
fn views_payloads(rt: HostRuntime) -> Result<(), Fail> {
    let (source, destination) = (Addr(0x0a00_0005), Addr(0xc0a8_c801));
    match UdpView::of(b"\x0f\xa0\x13\x88\0\x0a\xe1\x99hi", source, destination) {
        Ok(view) => {
            assert!(rt; view.ports() == (4000, 5000) && view.has_sum());
            assert!(rt; view.payload() == b"hi".as_slice());
        }
        Err(_) => assert!(rt; false),
    }
    let cases: [(&[u8], TransportFault); 2] = [
        (
            b"\x0f\xa0\x13\x88\0\x09\xe1\x99hi",
            TransportFault::BadTransport,
        ),
        (b"\x0f\xa0\x13\x88\0\x0a\xe1\x9ahi", TransportFault::BadSum),
    ];
    for (octets, fault) in cases {
        assert!(rt;
            matches!(UdpView::of(octets, source, destination), Err(found) if found == fault)
        );
    }
    match IcmpView::of(b"\x03\x03\xfc\xfc\0\0\0\0") {
        Ok(view) => assert!(rt; view.kind() == 3 && view.is_error() && view.inner().is_empty()),
        Err(_) => assert!(rt; false),
    }
    Ok(())
}
