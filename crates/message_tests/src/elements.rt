use snmp_gateway::Tlv;
use std::test::Fail;

/// Octets, and the tag, the content and the rest that are read from them, where they begin with an element.
const CASES: [(&[u8], Option<(u8, &[u8], &[u8])>); 13] = [
    (b"\x02\x01\x03", Some((2, b"\x03", b""))),
    (b"\x02\x00\x05\x00", Some((2, b"", b"\x05\x00"))),
    (b"\x04\x81\x02hi!", Some((4, b"hi", b"!"))),
    (b"\x04\x82\x00\x02hi", Some((4, b"hi", b""))),
    (b"\x04\x84\x00\x00\x00\x01h", Some((4, b"h", b""))),
    (b"", None),
    (b"\x02", None),
    (b"\x02\x02\x03", None),
    (b"\x04\x80hi\x00\x00", None),
    (b"\x04\x85\x00\x00\x00\x00\x01h", None),
    (b"\x04\x82\x02", None),
    (b"\x04\x82\x02\x00hi", None),
    (b"\x04\x84\xff\xff\xff\xffh", None),
];

#[test]
fn reads_elements(rt: HostRuntime) -> Result<(), Fail> {
    for (octets, expected) in CASES {
        match (Tlv::of(octets), expected) {
            (Some((element, rest)), Some((tag, content, more))) => {
                assert!(rt; element.tag() == tag, "{octets:?}");
                assert!(rt; element.content() == content, "{octets:?}");
                assert!(rt; rest == more, "{octets:?}");
            }
            (None, None) => {}
            _ => assert!(rt; false, "{octets:?}"),
        }
    }
    Ok(())
}
