use dns_names::{NameReader, NameStop, NameWriter, address_of, read_name, reverse_of};
use gate_base::Addr;
use std::alloc::Global;
use std::test::Fail;

/// Octets, a place in them, the name there without its root octet, and the place after it: 0 where there is none.
const NAMES: [(&[u8], usize, &[u8], usize); 13] = [
    (b"\x03ftp\x07example\0", 0, b"\x03ftp\x07example", 13),
    (b"\0", 0, b"", 1),
    (b"\x07example\0\x03ftp\xc0\0", 9, b"\x03ftp\x07example", 15),
    (b"\x01a\0\xc0\0\xc0\x03", 5, b"\x01a", 7),
    // A name below may go on over the place of the pointer that led to it, but not come back to its own start.
    (b"\x03\xc0\0x\0", 1, b"\x03\xc0\0x", 3),
    (b"\x01a\x01b\xc0\x02\0", 4, b"", 0),
    // Pointers to themselves, forward, past the end, and cut off.
    (b"\xc0\0", 0, b"", 0),
    (b"\x01a\xc0\0\0", 0, b"", 0),
    (b"\xc0\x02\0", 0, b"", 0),
    (b"\0\xc0", 1, b"", 0),
    // A label of 64 octets, one that isn't whole, and a place past the end.
    (b"\x40\0", 0, b"", 0),
    (b"\x03ab", 0, b"", 0),
    (b"\0", 1, b"", 0),
];

/// Names, an address, and the reverse name of it in their spelling: none where they are no reverse names.
const REVERSES: [(&[u8], u32, &[u8]); 4] = [
    (
        b"\x011\x03200\x03168\x03192\x07iN-addr\x04arPa\0",
        0x0a00_0005,
        b"\x015\x010\x010\x0210\x07iN-addr\x04arPa",
    ),
    (b"\x0201\x010\x010\x0210\x07in-addr\x04arpa\0", 0, b""),
    (b"\x010\x010\x0210\x07in-addr\x04arpa\0", 0, b""),
    (b"\x015\x010\x010\x0210\x07in-addr\x04arpa\x03com\0", 0, b""),
];

/// The octets of the name at a place, and the place after it.
fn name_at(alloc: Global, message: &[u8], place: usize) -> Result<(Vec<u8>, usize), NameStop> {
    let mut reader = NameReader::of(alloc, message)?;
    let (name, after) = reader.read(alloc, place)?;
    Ok((Vec::from_slice(alloc, name.octets())?, after))
}

/// The same once the name at another place was read.
fn second_name_at(
    alloc: Global,
    message: &[u8],
    first: usize,
    place: usize,
) -> Result<(Vec<u8>, usize), NameStop> {
    let mut reader = NameReader::of(alloc, message)?;
    let (_name, _end) = reader.read(alloc, first)?;
    let (name, after) = reader.read(alloc, place)?;
    Ok((Vec::from_slice(alloc, name.octets())?, after))
}

/// The reverse name of an address in the spelling of another.
fn reversed(alloc: Global, old: &[u8], address: u32) -> Option<Vec<u8>> {
    let (old, _) = read_name(alloc, old, 0).ok()?;
    if address_of(&old).is_none() {
        return None;
    }
    let name = reverse_of(alloc, Addr(address), &old).ok()?;
    Vec::from_slice(alloc, name.octets()).ok()
}

/// Two names behind two octets.
fn spelled(alloc: Global, first: &[u8], second: &[u8]) -> Option<Vec<u8>> {
    let (first, _) = read_name(alloc, first, 0).ok()?;
    let (second, _) = read_name(alloc, second, 0).ok()?;
    let mut writer = NameWriter::new(Vec::new(alloc)).ok()?;
    writer.put_octets(b"\x09\x09").ok()?;
    writer.put_name(&first).ok()?;
    writer.put_name(&second).ok()?;
    Some(writer.finish())
}

#[test]
fn known_names(rt: HostRuntime) -> Result<(), Fail> {
    let alloc = rt.alloc();
    for (message, place, octets, after) in NAMES {
        match name_at(alloc, message, place) {
            Ok((name, end)) => assert!(rt;
                name.as_slice() == octets && end == after,
                "{message:?}"
            ),
            Err(stop) => assert!(rt; stop == NameStop::BadDns && after == 0, "{message:?}"),
        }
    }
    for (old, address, octets) in REVERSES {
        let name = reversed(alloc, old, address).unwrap_or(Vec::new(alloc));
        assert!(rt; name.as_slice() == octets, "{old:?}");
    }
    let text = spelled(alloc, b"\x03ftp\x07example\0", b"\x01w\x07example\0").unwrap_or(Vec::new(
        alloc,
    ));
    assert!(rt; text.as_slice() == b"\x09\x09\x03ftp\x07example\0\x01w\xc0\x06".as_slice());
    // Labels of 63, 63, 63 and 61 octets make a name of 255, and one octet more is too much.
    let mut long = [63u8; 257];
    long[192] = 61;
    long[254] = 0;
    assert!(rt; read_name(alloc, &long, 0).is_ok());
    long[192] = 62;
    long[254] = 63;
    long[255] = 0;
    assert!(rt; read_name(alloc, &long, 0).is_err());
    // So it is where the last three labels are those of a name that was read before. A reader keeps what it read of messages of 128
    // octets and more.
    let mut joined = [63u8; 258];
    joined[192] = 0;
    joined[193] = 61;
    joined[255] = 0xc0;
    joined[256] = 0;
    assert!(rt; second_name_at(alloc, &joined, 0, 193).is_ok());
    joined[193] = 62;
    joined[255] = 63;
    joined[256] = 0xc0;
    joined[257] = 0;
    assert!(rt; second_name_at(alloc, &joined, 0, 193).is_err());
    // A pointer in what was read before leads below the start of the labels that lead there, or there is no name.
    let mut behind = [0u8; 130];
    behind[..11].copy_from_slice(b"\0\0\x02\0y\x01x\xc0\x01\xc0\x02");
    assert!(rt; second_name_at(alloc, &behind, 5, 9).is_ok());
    behind[8] = 3;
    assert!(rt; second_name_at(alloc, &behind, 5, 9).is_err());
    Ok(())
}
