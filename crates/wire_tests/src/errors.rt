use gate_base::Addr;
use icmp_errors::{Inner, inner_of, put_inner};
use std::test::Fail;

const INNER: [u8; 28] = *b"\x45\0\0\x1e\0\x01\x40\0\x3f\x11\x7c\xb8\xac\x10\x09\x01\x0a\0\0\x05\
        \x0f\xa0\x13\x88\0\x0a\xb5\x32";

#[test]
fn reads_and_writes_inner_datagrams(rt: HostRuntime) -> Result<(), Fail> {
    let (source, destination) = (Addr(0x0a00_0005), Addr(0xc0a8_c801));
    let found = Inner {
        source: Addr(0xac10_0901),
        destination: Addr(0x0a00_0005),
        protocol: 17,
        ports: (4000, 5000),
        sequence: 0x000a_b532,
    };
    assert!(rt; inner_of(&INNER) == Ok(found));
    assert!(rt; inner_of(&INNER[..27]).is_err());

    // One octet of it changed, and whether it is refused.
    let cases: [(usize, u8, bool); 6] = [
        (0, 0x46, true),
        (0, 0x55, true),
        (6, 0x20, false),
        (6, 0x10, true),
        (7, 0x01, true),
        (11, 0, false),
    ];
    for (place, octet, refused) in cases {
        let mut inner = INNER;
        inner[place] = octet;
        assert!(rt; inner_of(&inner).is_err() == refused);
    }

    let mut inner = INNER;
    put_inner(&mut inner, source, destination, None);
    assert!(rt;
        inner
            == *b"\x45\0\0\x1e\0\x01\x40\0\x3f\x11\xa9\x1f\x0a\0\0\x05\xc0\xa8\xc8\x01\
        \x0f\xa0\x13\x88\0\x0a\xb5\x32"
    );

    // A TCP segment.
    let mut inner = *b"\x45\0\0\x29\0\x03\x40\0\x3c\x06\x7f\xb6\xac\x10\x09\x01\x0a\0\0\x05\
        \x9c\x40\0\x15\0\0\x03\xfe";
    put_inner(&mut inner, source, destination, Some(1020));
    assert!(rt;
        inner
            == *b"\x45\0\0\x29\0\x03\x40\0\x3c\x06\xac\x1d\x0a\0\0\x05\xc0\xa8\xc8\x01\
        \x9c\x40\0\x15\0\0\x03\xfc"
    );
    Ok(())
}
