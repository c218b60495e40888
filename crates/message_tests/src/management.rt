use gate_base::Addr;
use snmp_gateway::{Lookup, SnmpKind, SnmpStop, addresses, check, rename_in_place};
use std::test::Fail;

/// A trap: its agent address 10.0.0.5 is known, and its value 10.0.0.9 isn't.
const TRAP: [u8; 50] =
    *b"\x30\x30\x02\x01\0\x04\x06public\xa4\x23\x06\x03\x2b\x06\x01\x40\x04\x0a\0\0\x05\
    \x02\x01\x06\x02\x01\x01\x43\x01\0\x30\x0d\x30\x0b\x06\x03\x2b\x06\x01\x40\x04\x0a\0\0\x09";

/// A response of version 2c: its first value, 10.0.0.5, is known, and the view has no second value.
const RESPONSE: [u8; 48] =
    *b"\x30\x2e\x02\x01\x01\x04\x06public\xa2\x21\x02\x01\x01\x02\x01\0\x02\x01\0\x30\x16\
    \x30\x0b\x06\x03\x2b\x06\x01\x40\x04\x0a\0\0\x05\x30\x07\x06\x03\x2b\x06\x01\x82\0";

/// Tags of a PDU with the fields of a request and of its value, and whether messages of the versions 1 and 2c have them.
const TAGS: [(u8, u8, bool, bool); 28] = [
    (0x9f, 0x05, false, false),
    (0xa0, 0x05, true, true),
    (0xa1, 0x05, true, true),
    (0xa2, 0x05, true, true),
    (0xa3, 0x05, true, true),
    (0xa4, 0x05, false, false),
    (0xa5, 0x05, false, true),
    (0xa6, 0x05, false, true),
    (0xa7, 0x05, false, true),
    (0xa8, 0x05, false, true),
    (0xa9, 0x05, false, false),
    (0xa2, 0x02, true, true),
    (0xa2, 0x03, false, false),
    (0xa2, 0x04, true, true),
    (0xa2, 0x06, true, true),
    (0xa2, 0x30, false, false),
    (0xa2, 0x40, true, true),
    (0xa2, 0x41, true, true),
    (0xa2, 0x42, true, true),
    (0xa2, 0x43, true, true),
    (0xa2, 0x44, true, true),
    (0xa2, 0x45, false, false),
    (0xa2, 0x46, false, true),
    (0xa2, 0x47, false, false),
    (0xa2, 0x80, false, true),
    (0xa2, 0x81, false, true),
    (0xa2, 0x82, false, true),
    (0xa2, 0x83, false, false),
];

/// The first octets of messages that go on as the trap does behind its second octet, and whether they are messages.
const HEADS: [(&[u8], bool); 5] = [
    (b"\x30\x30", true),
    (b"\x30\x81\x30", true),
    (b"\x30\x80", false),
    (b"\x30\x83\x30", false),
    (b"\x30\x85\0\0\0\0\x30", false),
];

/// Octets, and the version of the message that they are, if they are one: the trap without its last octet and with an octet
/// behind it are made in the test.
const CASES: [(&[u8], Option<SnmpKind>); 13] = [
    // A response without a binding: as it is, with a longer length of its version, and with an empty INTEGER.
    (
        b"\x30\x12\x02\x01\0\x04\0\xa2\x0b\x02\x01\x01\x02\x01\0\x02\x01\0\x30\0",
        Some(SnmpKind::V1),
    ),
    (
        b"\x30\x13\x02\x81\x01\0\x04\0\xa2\x0b\x02\x01\x01\x02\x01\0\x02\x01\0\x30\0",
        Some(SnmpKind::V1),
    ),
    (
        b"\x30\x11\x02\x01\0\x04\0\xa2\x0a\x02\0\x02\x01\0\x02\x01\0\x30\0",
        None,
    ),
    // A response with a value: NULL, NULL with an octet, an IpAddress of 3 or 5 octets, a sequence.
    (
        b"\x30\x19\x02\x01\0\x04\0\xa2\x12\x02\x01\x01\x02\x01\0\x02\x01\0\x30\x07\x30\x05\x06\x01\x2b\x05\0",
        Some(SnmpKind::V1),
    ),
    (
        b"\x30\x1a\x02\x01\0\x04\0\xa2\x13\x02\x01\x01\x02\x01\0\x02\x01\0\x30\x08\x30\x06\x06\x01\x2b\x05\x01\0",
        None,
    ),
    (
        b"\x30\x1c\x02\x01\0\x04\0\xa2\x15\x02\x01\x01\x02\x01\0\x02\x01\0\x30\x0a\x30\x08\x06\x01\x2b\x40\x03\x0a\0\0",
        None,
    ),
    (
        b"\x30\x1e\x02\x01\0\x04\0\xa2\x17\x02\x01\x01\x02\x01\0\x02\x01\0\x30\x0c\x30\x0a\x06\x01\x2b\x40\x05\x0a\0\0\x05\0",
        None,
    ),
    (
        b"\x30\x19\x02\x01\0\x04\0\xa2\x12\x02\x01\x01\x02\x01\0\x02\x01\0\x30\x07\x30\x05\x06\x01\x2b\x30\0",
        None,
    ),
    // The versions 2c and 2 by their numbers 1 and 2, and version 3 with anything.
    (
        b"\x30\x12\x02\x01\x01\x04\0\xa2\x0b\x02\x01\x01\x02\x01\0\x02\x01\0\x30\0",
        Some(SnmpKind::V2),
    ),
    (
        b"\x30\x12\x02\x01\x02\x04\0\xa2\x0b\x02\x01\x01\x02\x01\0\x02\x01\0\x30\0",
        None,
    ),
    // An exception with an octet (version 2c).
    (
        b"\x30\x1a\x02\x01\x01\x04\0\xa2\x13\x02\x01\x01\x02\x01\0\x02\x01\0\x30\x08\x30\x06\x06\x01\x2b\x82\x01\0",
        None,
    ),
    (b"\x30\x03\x02\x01\x03", Some(SnmpKind::V3)),
    (b"\x30\x06\x02\x01\x03\x40\x05\0", Some(SnmpKind::V3)),
];

/// Knows 10.0.0.5 as 172.16.9.1.
struct One;

impl Lookup for One {
    ghost use Rattle.std.specs.Prelude.{◌==◌, if◌then◌else◌, Some, None};

    ghost image_of = { λ _ address. if address == 0x0a00_0005 then Some 0xac10_0901 else None };

    fn image(&self, address: Addr) -> Option<Addr> {
        if address.0 == 0x0a00_0005 {
            Some(Addr(0xac10_0901))
        } else {
            None
        }
    }
}

/// A message with the fields of a request and one value, of no octets if it is a NULL or an exception, else of four.
fn message_of(version: u8, pdu: u8, value: u8) -> [u8; 31] {
    let mut octets = *b"\x30\x1d\x02\x01\0\x04\0\xa2\x16\x02\x01\x01\x02\x01\0\x02\x01\0\
        \x30\x0b\x30\x09\x06\x01\x2b\x04\x04\x0a\0\0\x05";
    octets[4] = version;
    octets[7] = pdu;
    octets[25] = value;
    if matches!(value, 0x05 | 0x80..=0x83) {
        octets[22..].copy_from_slice(b"\x06\x05\x2b\x06\x01\x02\x01\x05\0");
        octets[29] = value;
    }
    octets
}

#[test]
fn tells_the_tags_of_each_version(rt: HostRuntime) -> Result<(), Fail> {
    for (pdu, value, first, second) in TAGS {
        assert!(rt;
            check(&message_of(0, pdu, value)).is_some() == first,
            "{pdu} {value}"
        );
        assert!(rt;
            check(&message_of(1, pdu, value)).is_some() == second,
            "{pdu} {value}"
        );
    }
    let mut octets = TRAP;
    octets[4] = 1;
    assert!(rt; check(&octets).is_none());
    Ok(())
}

#[test]
fn renames_a_response_of_version_2c(rt: HostRuntime) -> Result<(), Fail> {
    let mut places = Vec::new(rt.alloc());
    assert!(rt; addresses(&RESPONSE, &mut places) == Ok(SnmpKind::V2));
    assert!(rt; places.as_slice() == [35u32].as_slice());
    let mut octets = RESPONSE;
    if check(&octets).is_some() {
        rename_in_place(&mut octets, &One);
    }
    let mut expected = RESPONSE;
    expected[35..39].copy_from_slice(b"\xac\x10\x09\x01");
    assert!(rt; octets == expected);
    octets[4] = 0;
    assert!(rt; check(&octets).is_none());
    octets[4] = 1;
    octets[13] = 0xa4;
    assert!(rt; check(&octets).is_none());
    Ok(())
}

#[test]
fn reads_and_renames(rt: HostRuntime) -> Result<(), Fail> {
    for (octets, kind) in CASES {
        assert!(rt; check(octets) == kind, "{octets:?}");
    }
    assert!(rt; check(&TRAP[..49]).is_none());
    for (head, is_message) in HEADS {
        let mut octets = Vec::from_slice(rt.alloc(), head)?;
        octets.extend_from_slice(&TRAP[2..])?;
        assert!(rt; check(&octets).is_some() == is_message, "{head:?}");
        octets.push(0)?;
        assert!(rt; check(&octets).is_none(), "{head:?}");
    }
    let mut nested = [0x30u8; 60_000];
    assert!(rt; check(&nested).is_none());
    nested[1..7].copy_from_slice(b"\x82\xea\x5c\x02\x01\x03");
    assert!(rt; check(&nested) == Some(SnmpKind::V3));
    let mut places = Vec::new(rt.alloc());
    assert!(rt; addresses(&TRAP, &mut places) == Ok(SnmpKind::V1));
    assert!(rt; addresses(&TRAP[1..], &mut places) == Err(SnmpStop::BadSnmp));
    assert!(rt; places.as_slice() == [22u32, 46].as_slice());
    let mut octets = TRAP;
    if check(&octets).is_some() {
        rename_in_place(&mut octets, &One);
    }
    let mut expected = TRAP;
    expected[22..26].copy_from_slice(b"\xac\x10\x09\x01");
    assert!(rt; octets == expected);
    Ok(())
}
