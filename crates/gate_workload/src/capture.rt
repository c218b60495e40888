// Captures of bare datagrams, little-endian, fractions in microseconds.
ghost use Rattle.std.specs.Prelude.{◌≡◌, ◌^◌, ◌<◌};
ghost use Rattle.gate_workload.specs.Captures.{capture_head, record_head};

use byteorder::{ByteOrder, LittleEndian};

/// The head of a capture: version 2.4, records of at most 262,144 octets, link type 101.
pub(crate) fn capture_head() -> [u8; 24]
    ensures { result ≡ capture_head }
{
    [
        0xd4, 0xc3, 0xb2, 0xa1, 2, 0, 4, 0, 0, 0, 0, 0, 0, 0, 0, 0, 0, 0, 4, 0, 101, 0, 0, 0,
    ]
}

/// The octets of a record's head.
pub(crate) const RECORD_HEAD: usize = 16;

/// The second at which the first frame comes.
pub const FIRST_SECOND: u64 = 1000;

/// The head of the record of a frame, which has so many octets. The frame comes as many milliseconds after the first one
/// as there are frames before it.
pub(crate) fn record_head(frame: u64, len: u32) -> [u8; 16]
    requires { frame < 2 ^ 40 }
    ensures { result ≡ record_head frame len }
{
    let mut head = [0; RECORD_HEAD];
    LittleEndian::write_u32(&mut head[..4], (FIRST_SECOND + frame / 1000) as u32);
    LittleEndian::write_u32(&mut head[4..8], (frame % 1000 * 1000) as u32);
    LittleEndian::write_u32(&mut head[8..12], len);
    LittleEndian::write_u32(&mut head[12..], len);
    head
}
