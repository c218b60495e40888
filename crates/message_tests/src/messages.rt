use dns_messages::{read_message, write_message};
use dns_names::NameStop;
use std::alloc::Global;
use std::test::Fail;

/// Octets, and the spelling of the message that they are: none where they are no message.
const CASES: [(&[u8], &[u8]); 12] = [
    // An answer with two addresses and an OPT record (RFC 6891).
    (
        b"\0\x01\x81\x80\0\x01\0\x02\0\0\0\x01\x03ftp\x07example\0\0\x01\0\x01\
        \xc0\x0c\0\x01\0\x01\0\0\x0e\x10\0\x04\x0a\0\0\x05\
        \xc0\x0c\0\x01\0\x01\0\0\x0e\x10\0\x04\x0a\0\0\x08\0\0\x29\x04\xd0\0\0\x80\0\0\0",
        b"\0\x01\x81\x80\0\x01\0\x02\0\0\0\x01\x03ftp\x07example\0\0\x01\0\x01\
        \xc0\x0c\0\x01\0\x01\0\0\x0e\x10\0\x04\x0a\0\0\x05\
        \xc0\x0c\0\x01\0\x01\0\0\x0e\x10\0\x04\x0a\0\0\x08\0\0\x29\x04\xd0\0\0\x80\0\0\0",
    ),
    // Data of length 0 with type 1, and one octet with type 1 in class 3.
    (
        b"\0\x01\x81\x80\0\0\0\x01\0\0\0\x01\x01a\0\0\x01\0\x01\0\0\0\0\0\0\x01a\0\0\x01\0\x03\0\0\0\0\0\x01\xff",
        b"\0\x01\x81\x80\0\0\0\x01\0\0\0\x01\x01a\0\0\x01\0\x01\0\0\0\0\0\0\xc0\x0c\0\x01\0\x03\0\0\0\0\0\x01\xff",
    ),
    // A mail exchange whose name ends with its data, and with two octets more.
    (
        b"\0\x01\x81\x80\0\0\0\x01\0\0\0\0\x01a\0\0\x0f\0\x01\0\0\0\0\0\x05\0\x07\x01b\0",
        b"\0\x01\x81\x80\0\0\0\x01\0\0\0\0\x01a\0\0\x0f\0\x01\0\0\0\0\0\x05\0\x07\x01b\0",
    ),
    (
        b"\0\x01\x81\x80\0\0\0\x01\0\0\0\0\x01a\0\0\x0f\0\x01\0\0\0\0\0\x07\0\x07\x01b\0\0\0",
        b"",
    ),
    // Each type whose data are one name, and in the other two sections those with two names, and with names and numbers.
    (
        b"\0\x01\x81\x80\0\0\0\x08\0\x01\0\x02\x01a\x01b\0\0\x02\0\x01\0\0\0\x3c\0\x06\x02ns\x01b\0\x01a\x01b\0\0\x03\0\
        \x01\0\0\0\x3c\0\x06\x02md\x01b\0\x01a\x01b\0\0\x04\0\x01\0\0\0\x3c\0\x06\x02mf\x01b\0\x01a\x01b\0\0\x05\0\x01\
        \0\0\0\x3c\0\x05\x01c\x01b\0\x01a\x01b\0\0\x07\0\x01\0\0\0\x3c\0\x06\x02mb\x01b\0\x01a\x01b\0\0\x08\0\x01\0\0\
        \0\x3c\0\x06\x02mg\x01b\0\x01a\x01b\0\0\x09\0\x01\0\0\0\x3c\0\x06\x02mr\x01b\0\x01a\x01b\0\0\x0c\0\x01\0\0\0\
        \x3c\0\x05\x01p\x01b\0\x01b\0\0\x06\0\x01\0\0\0\x3c\0\x1f\x02ns\x01b\0\x01h\x01b\0\0\x01\x02\x03\x04\x05\x06\
        \x07\x08\x09\x0a\x0b\x0c\x0d\x0e\x0f\x10\x11\x12\x13\x01a\x01b\0\0\x0e\0\x01\0\0\0\x3c\0\x0a\x01r\x01b\0\x01e\
        \x01b\0\x01a\x01b\0\0\x0f\0\x01\0\0\0\x3c\0\x07\0\x0a\x01x\x01b\0",
        b"\0\x01\x81\x80\0\0\0\x08\0\x01\0\x02\x01a\x01b\0\0\x02\0\x01\0\0\0\x3c\0\x05\x02ns\xc0\x0e\xc0\x0c\0\x03\0\x01\
        \0\0\0\x3c\0\x05\x02md\xc0\x0e\xc0\x0c\0\x04\0\x01\0\0\0\x3c\0\x05\x02mf\xc0\x0e\xc0\x0c\0\x05\0\x01\0\0\0\x3c\
        \0\x04\x01c\xc0\x0e\xc0\x0c\0\x07\0\x01\0\0\0\x3c\0\x05\x02mb\xc0\x0e\xc0\x0c\0\x08\0\x01\0\0\0\x3c\0\x05\x02m\
        g\xc0\x0e\xc0\x0c\0\x09\0\x01\0\0\0\x3c\0\x05\x02mr\xc0\x0e\xc0\x0c\0\x0c\0\x01\0\0\0\x3c\0\x04\x01p\xc0\x0e\
        \xc0\x0e\0\x06\0\x01\0\0\0\x3c\0\x1a\xc0\x1b\x01h\xc0\x0e\0\x01\x02\x03\x04\x05\x06\x07\x08\x09\x0a\x0b\x0c\
        \x0d\x0e\x0f\x10\x11\x12\x13\xc0\x0c\0\x0e\0\x01\0\0\0\x3c\0\x08\x01r\xc0\x0e\x01e\xc0\x0e\xc0\x0c\0\x0f\0\x01\
        \0\0\0\x3c\0\x06\0\x0a\x01x\xc0\x0e",
    ),
    // A name by a pointer to the first octet of the header, which is a root octet.
    (
        b"\0\x01\x01\0\0\x01\0\0\0\0\0\0\xc0\0\0\x01\0\x01",
        b"\0\x01\x01\0\0\x01\0\0\0\0\0\0\0\0\x01\0\x01",
    ),
    // A name by a pointer to itself.
    (b"\0\x01\x01\0\0\x01\0\0\0\0\0\0\xc0\x0c\0\x01\0\x01", b""),
    // Two questions, a record too few, an octet behind, a message that is cut off, and a header that is.
    (
        b"\0\x01\x01\0\0\x02\0\0\0\0\0\0\0\0\x01\0\x01\0\0\x01\0\x01",
        b"",
    ),
    (b"\0\x01\x01\0\0\x01\0\x01\0\0\0\0\0\0\x01\0\x01", b""),
    (b"\0\x01\x01\0\0\x01\0\0\0\0\0\0\0\0\x01\0\x01\0", b""),
    (b"\0\x01\x01\0\0\x01\0\0\0\0\0\0\0\0\x01\0", b""),
    (b"\0\x01\x01\0\0\x01\0\0\0\0\0", b""),
];

/// The spelling of the message that octets are.
fn spelled(alloc: Global, octets: &[u8]) -> Result<Vec<u8>, NameStop> {
    let message = read_message(alloc, octets)?;
    write_message(alloc, &message).map_err(|_| NameStop::OutOfMemory)
}

#[test]
fn known_messages(rt: HostRuntime) -> Result<(), Fail> {
    for (octets, spelling) in CASES {
        match spelled(rt.alloc(), octets) {
            Ok(text) => assert!(rt; text.as_slice() == spelling, "{octets:?}"),
            Err(stop) => {
                assert!(rt;
                    stop == NameStop::BadDns && spelling.is_empty(),
                    "{octets:?}"
                )
            }
        }
    }
    Ok(())
}
