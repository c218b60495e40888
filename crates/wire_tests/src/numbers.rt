use gate_base::{Addr, get_u16, get_u32, is_unicast, put_u16, put_u32, read_quad};
use std::test::Fail;

/// Texts, and the addresses that they write, if they do.
const TEXTS: [(&[u8], Option<u32>); 9] = [
    (b"10.0.0.5", Some(0x0a00_0005)),
    (b"255.255.255.255", Some(0xffff_ffff)),
    (b"0.0.0.0", Some(0)),
    (b"256.0.0.1", None),
    (b"01.0.0.1", None),
    (b"1.2.3", None),
    (b"1.2.3.4.5", None),
    (b"1.2.3.4 ", None),
    (b"", None),
];

/// Addresses at the edges of what a host may have.
const EDGES: [(u32, bool); 6] = [
    (0x00ff_ffff, false),
    (0x0100_0000, true),
    (0x7f00_0001, false),
    (0x8000_0000, true),
    (0xdfff_ffff, true),
    (0xe000_0000, false),
];

#[test]
fn known_values(rt: HostRuntime) -> Result<(), Fail> {
    for (text, number) in TEXTS {
        assert!(rt;
            read_quad(text).map(|address| address.0) == number,
            "{text:?}"
        );
    }
    for (number, unicast) in EDGES {
        assert!(rt; is_unicast(Addr(number)) == unicast, "{number:x}");
    }
    let mut octets = [0u8; 8];
    put_u16(&mut octets, 1, 0x0102);
    put_u32(&mut octets, 3, 0xa1b2_c3d4);
    assert!(rt; octets == [0, 1, 2, 0xa1, 0xb2, 0xc3, 0xd4, 0]);
    assert!(rt; get_u16(&octets, 2) == 0x02a1);
    assert!(rt; get_u32(&octets, 3) == 0xa1b2_c3d4);
    Ok(())
}
