use dns_gateway::{addresses_of, rename, reply};
use dns_messages::read_message;
use gate_base::Addr;
use std::alloc::{AllocError, Global};
use std::test::Fail;

/// Messages, and what is sent for each.
const CASES: [(&[u8], &[u8]); 6] = [
    // An answer with two addresses that have images, and an OPT record (RFC 6891).
    (
        b"\0\x01\x81\x80\0\x01\0\x02\0\0\0\x01\x03ftp\x07example\0\0\x01\0\x01\
        \xc0\x0c\0\x01\0\x01\0\0\x0e\x10\0\x04\x0a\0\0\x05\
        \xc0\x0c\0\x01\0\x01\0\0\x0e\x10\0\x04\x0a\0\0\x08\0\0\x29\x04\xd0\0\0\x80\0\0\0",
        b"\0\x01\x81\x80\0\x01\0\x02\0\0\0\x01\x03ftp\x07example\0\0\x01\0\x01\
        \xc0\x0c\0\x01\0\x01\0\0\0\0\0\x04\xc0\xa8\xc8\x01\
        \xc0\x0c\0\x01\0\x01\0\0\0\0\0\x04\xc0\xa8\xc8\x02\0\0\x29\x04\xd0\0\0\x80\0\0\0",
    ),
    // The same with an address that has none: its lifetime stays.
    (
        b"\0\x01\x81\x80\0\x01\0\x02\0\0\0\0\x01a\0\0\x01\0\x01\
        \xc0\x0c\0\x01\0\x01\0\0\x0e\x10\0\x04\x0a\0\0\x09\
        \xc0\x0c\0\x01\0\x01\0\0\x0e\x10\0\x04\x0a\0\0\x08",
        b"\0\x01\x81\x80\0\x01\0\x02\0\0\0\0\x01a\0\0\x01\0\x01\
        \xc0\x0c\0\x01\0\x01\0\0\x0e\x10\0\x04\x0a\0\0\x09\
        \xc0\x0c\0\x01\0\x01\0\0\0\0\0\x04\xc0\xa8\xc8\x02",
    ),
    // A question of 44 octets for a reverse name, which becomes one of 39.
    (
        b"\0\x02\x01\0\0\x01\0\0\0\0\0\0\x011\x03200\x03168\x03192\x07in-addr\x04arpa\0\0\x0c\0\x01",
        b"\0\x02\x01\0\0\x01\0\0\0\0\0\0\x015\x010\x010\x0210\x07in-addr\x04arpa\0\0\x0c\0\x01",
    ),
    // Its answer of 64 octets, which becomes one of 69.
    (
        b"\0\x02\x81\x80\0\x01\0\x01\0\0\0\0\x015\x010\x010\x0210\x07in-addr\x04arpa\0\0\x0c\0\x01\
        \xc0\x0c\0\x0c\0\x01\0\0\x01\x2c\0\x0d\x03ftp\x07example\0",
        b"\0\x02\x81\x80\0\x01\0\x01\0\0\0\0\x011\x03200\x03168\x03192\x07in-addr\x04arpa\0\0\x0c\0\x01\
        \xc0\x0c\0\x0c\0\x01\0\0\0\0\0\x0d\x03ftp\x07example\0",
    ),
    // A reverse name with a leading zero, and one inside data: both are kept.
    (
        b"\0\x02\x01\0\0\x01\0\0\0\0\0\0\x0205\x010\x010\x0210\x07in-addr\x04arpa\0\0\x0c\0\x01",
        b"\0\x02\x01\0\0\x01\0\0\0\0\0\0\x0205\x010\x010\x0210\x07in-addr\x04arpa\0\0\x0c\0\x01",
    ),
    (
        b"\0\x02\x81\x80\0\0\0\x01\0\0\0\0\x01a\0\0\x0c\0\x01\0\0\x01\x2c\0\x17\x015\x010\x010\x0210\x07in-addr\x04arpa\0",
        b"\0\x02\x81\x80\0\0\0\x01\0\0\0\0\x01a\0\0\x0c\0\x01\0\0\x01\x2c\0\x17\x015\x010\x010\x0210\x07in-addr\x04arpa\0",
    ),
];

/// The answer for a reverse name, with room for a record of text, and what is sent for it: the header and the question.
const LONG: &[u8] =
    b"\0\x02\x81\x80\0\x01\0\x02\0\0\0\0\x015\x010\x010\x0210\x07in-addr\x04arpa\0\0\x0c\0\x01\
    \xc0\x0c\0\x0c\0\x01\0\0\x01\x2c\0\x0d\x03ftp\x07example\0\xc0\x0c\0\x10\0\x01\0\0\x01\x2c\x01\xb4";

const CUT: &[u8] =
    b"\0\x02\x83\x80\0\x01\0\0\0\0\0\0\x011\x03200\x03168\x03192\x07in-addr\x04arpa\0\0\x0c\0\x01";

/// The reply for a message that would be too long: its header alone.
const TRUNCATED: &[u8] = b"\0\x03\x83\x80\0\0\0\0\0\0\0\0";

/// An answer whose 300 names stand in other data, so that each is written whole: more than 65,535 octets.
fn too_long(alloc: Global) -> Result<Vec<u8>, AllocError> {
    let mut octets = Vec::from_slice(alloc, b"\0\x03\x81\x80\0\0\x01\x2d\0\0\0\0")?;
    octets.extend_from_slice(b"\0\0\x10\0\x01\0\0\0\0\x40\x74")?;
    for count in [63u8, 63, 63, 61] {
        octets.push(count)?;
        octets.resize(octets.len() + usize::from(count), b'a')?;
    }
    octets.resize(16_523, 0)?;
    for _ in 0..300 {
        octets.extend_from_slice(b"\xc0\x17\0\x01\0\x01\0\0\0\0\0\0")?;
    }
    Ok(octets)
}

fn image(address: &Addr) -> Option<Addr> {
    match address.0 {
        0x0a00_0005 => Some(Addr(0xc0a8_c801)),
        0x0a00_0008 => Some(Addr(0xc0a8_c802)),
        0xc0a8_c801 => Some(Addr(0x0a00_0005)),
        _ => None,
    }
}

/// What is sent for a message.
fn sent(alloc: Global, octets: &[u8]) -> Option<Vec<u8>> {
    let mut message = read_message(alloc, octets).ok()?;
    let addresses = addresses_of(alloc, &message).ok()?;
    let images: Vec<Option<Addr>> = addresses.iter().map(image).collect(alloc).ok()?;
    match rename(alloc, &mut message, &images) {
        Ok(()) => reply(alloc, &message, octets.len()).ok(),
        Err(_) => None,
    }
}

#[test]
fn known_replies(rt: HostRuntime) -> Result<(), Fail> {
    let alloc = rt.alloc();
    for (octets, expected) in CASES {
        let reply = sent(alloc, octets).unwrap_or(Vec::new(alloc));
        assert!(rt; reply.as_slice() == expected, "{octets:?}");
    }
    let mut octets = Vec::from_slice(alloc, LONG)?;
    octets.resize(512, 7)?;
    let reply = sent(alloc, &octets).unwrap_or(Vec::new(alloc));
    assert!(rt; reply.as_slice() == CUT);
    let reply = sent(alloc, &too_long(alloc)?).unwrap_or(Vec::new(alloc));
    assert!(rt; reply.as_slice() == TRUNCATED);
    Ok(())
}
