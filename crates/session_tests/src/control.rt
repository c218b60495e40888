use dialogue::Dialogue;
use ftp_lines::{ClientLines, ServerLines};
use gate_base::{Addr, Pair};
use std::alloc::{AllocError, Global};
use std::test::Fail;

/// The client 10.0.0.5 is known as 172.16.9.1, and the server, 10.0.0.5 of the other realm, as 192.168.200.1.
const PAIR: Pair = Pair {
    client: Addr(0x0a00_0005),
    client_alias: Addr(0xac10_0901),
    server: Addr(0x0a00_0005),
    server_alias: Addr(0xc0a8_c801),
};

/// The server 1.1.1.1 is known as 192.168.200.100.
const SHORT: Pair = Pair {
    client: Addr(0x0a00_0005),
    client_alias: Addr(0xac10_0901),
    server: Addr(0x0101_0101),
    server_alias: Addr(0xc0a8_c864),
};

/// Lines of the client, and their images.
const CLIENT_CHANGED: &[(&[u8], &[u8])] = &[
    (b"PORT 10,0,0,5,4,1\r\n", b"PORT 172,16,9,1,4,1\r\n"),
    (b"port   10,0,0,5,4,1\n", b"port   172,16,9,1,4,1\n"),
    (b"PORT 010,0,0,5,4,1\n", b"PORT 172,16,9,1,4,1\n"),
    (b"PORT 192,168,200,1,4,1\n", b"PORT 10,0,0,5,4,1\n"),
    (
        b"EPRT |1|10.0.0.5|1025|\r\n",
        b"EPRT |1|172.16.9.1|1025|\r\n",
    ),
    (b"EPRT !1!10.0.0.5!6446!\n", b"EPRT !1!172.16.9.1!6446!\n"),
    (
        b"eprt |1|192.168.200.1|65535|\n",
        b"eprt |1|10.0.0.5|65535|\n",
    ),
];

/// Lines of the client that are kept, and whether they bear an address.
const CLIENT_KEPT: &[(&[u8], bool)] = &[
    (b"PORT 192,168,200,53,4,1\r\n", true),
    (b"PORT 172,16,9,1,4,1\n", true),
    (b"PORT 10,0,0,5,4\n", false),
    (b"PORT 10,0,0,5,4,256\n", false),
    (b"PORT 0010,0,0,5,4,1\n", false),
    (b"EPRT |2|::1|1025|\r\n", false),
    (b"EPRT |2|10.0.0.5|1025|\n", false),
    (b"EPRT |1|10.0.0.5||\n", false),
    (b"EPRT |1|10.0.0.5|102500|\n", false),
    (b"EPRT 71710.0.0.5710257\n", false),
    (b"EPRT .1.10.0.0.5.1025.\n", false),
    (b"LIST 10,0,0,5,4,1\n", false),
    (b"227 10,0,0,5,4,1\n", false),
    (b"NOOP\r\n", false),
];

/// Lines of the server, and their images.
const SERVER_CHANGED: &[(&[u8], &[u8])] = &[
    (
        b"227 Entering Passive Mode (10,0,0,5,4,1).\r\n",
        b"227 Entering Passive Mode (192,168,200,1,4,1).\r\n",
    ),
    (b"227 v2 (10,0,0,5,4,1)\n", b"227 v2 (192,168,200,1,4,1)\n"),
    (b"227 (172,16,9,1,4,1)\n", b"227 (10,0,0,5,4,1)\n"),
];

/// Lines of the server that are kept, and whether they bear an address.
const SERVER_KEPT: &[(&[u8], bool)] = &[
    (b"227 1,10,0,0,5,4,1\n", true),
    (b"227,10,0,0,5,4,1\n", false),
    (b"2271 10,0,0,5,4,1\n", false),
    (b"PORT 10,0,0,5,4,1\n", false),
    (b"200 ok\r\n", false),
];

/// Whether the line is one, bears an address or not, and has this image.
fn has_image<D: Dialogue>(
    alloc: Global,
    lines: &mut D,
    line: &[u8],
    bears: bool,
    image: &[u8],
) -> bool {
    match lines.image(alloc, line) {
        Ok(found) => {
            lines.first_end(line) == Some(line.len())
                && lines.bears(line) == bears
                && found.as_slice() == image
        }
        Err(_) => false,
    }
}

/// The first line that isn't as it has to be.
fn first_wrong<'a, D: Dialogue>(
    alloc: Global,
    lines: &mut D,
    changed: &[(&'a [u8], &'a [u8])],
    kept: &[(&'a [u8], bool)],
) -> Option<&'a [u8]> {
    for (line, image) in changed {
        if !has_image(alloc, lines, line, true, image) {
            return Some(line);
        }
    }
    for (line, bears) in kept {
        if !has_image(alloc, lines, line, *bears, line) {
            return Some(line);
        }
    }
    None
}

/// Whether octets are a rest that waits for more.
fn waits<D: Dialogue>(lines: &D, octets: &[u8]) -> bool {
    lines.first_end(octets).is_none() && lines.holds(octets)
}

/// A line of 18 octets, so many letters, CR and LF.
fn passive_line(alloc: Global, letters: usize) -> Result<Vec<u8>, AllocError> {
    let mut line = Vec::from_slice(alloc, b"227 (10,0,0,5,4,1)")?;
    line.extend_from_slice(&[b'x'; 493][..letters.min(493)])?;
    line.extend_from_slice(b"\r\n")?;
    Ok(line)
}

#[test]
fn renames_and_holds(rt: HostRuntime) -> Result<(), Fail> {
    let mut client = ClientLines { pair: PAIR };
    let mut server = ServerLines { pair: PAIR };
    let mut short = ServerLines { pair: SHORT };
    assert_eq!(rt;
        first_wrong(rt.alloc(), &mut client, CLIENT_CHANGED, CLIENT_KEPT),
        None
    );
    assert_eq!(rt;
        first_wrong(rt.alloc(), &mut server, SERVER_CHANGED, SERVER_KEPT),
        None
    );
    assert!(rt;
        has_image(
            rt.alloc(),
            &mut short,
            b"227 1,1,1,1,1,1\n",
            true,
            b"227 192,168,200,100,1,1\n"
        )
    );
    let long = passive_line(rt.alloc(), 492)?;
    assert!(rt; server.image(rt.alloc(), &long)?.len() == 517);
    assert!(rt; waits(&server, &long[..long.len().min(511)]));
    let longer = passive_line(rt.alloc(), 493)?;
    assert!(rt; has_image(rt.alloc(), &mut server, &longer, false, &longer));
    assert!(rt; !waits(&server, &longer[..longer.len().min(512)]));
    assert!(rt; waits(&client, b"PORT 10,0"));
    assert!(rt; !waits(&client, b"Q"));
    assert!(rt; waits(&client, b"PO"));
    assert!(rt; !waits(&client, b"PORT 10,0,0,5,4,1\r\n"));
    Ok(())
}
