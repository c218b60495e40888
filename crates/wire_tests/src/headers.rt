use gate_base::Addr;
use ipv4_frames::{IpFault, IpView, put_head};
use std::test::Fail;

const HEAD: &[u8; 20] = b"\x45\0\0\x1e\0\x01\x40\0\x40\x11\xa8\x1f\x0a\0\0\x05\xc0\xa8\xc8\x01";

#[test]
fn reads_and_writes_headers(rt: HostRuntime) -> Result<(), Fail> {
    let mut octets = [0xeeu8; 34];
    octets[..20].copy_from_slice(HEAD);
    match IpView::of(&octets) {
        Ok(view) => {
            assert!(rt;
                view.source() == Addr(0x0a00_0005) && view.destination() == Addr(0xc0a8_c801)
            );
            assert!(rt; view.protocol() == 17 && view.lifetime() == 64);
            assert!(rt; view.header() == &HEAD[..] && view.payload().len() == 10);
        }
        Err(_) => assert!(rt; false),
    }
    assert!(rt; matches!(IpView::of(&octets[..29]), Err(IpFault::BadHeader)));

    let mut target = [0xeeu8; 22];
    put_head(
        &mut target,
        HEAD,
        30,
        63,
        Addr(0xac10_0901),
        Addr(0x0a00_0005),
    );
    assert!(rt;
        target == *b"\x45\0\0\x1e\0\x01\x40\0\x3f\x11\x7c\xb8\xac\x10\x09\x01\x0a\0\0\x05\xee\xee"
    );
    Ok(())
}
