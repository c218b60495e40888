// What the datagrams carry, and where they go.
ghost use Rattle.std.specs.Prelude.{◌≡◌, ◌≤◌, ◌<◌, ◌^◌, length, IfOk};
ghost use Rattle.gate_workload.specs.Payloads as payloads;

use crate::flow::Flow;
use gate_base::{Addr, CONTROL_PORT, DNS_PORT, OutOfMemory, put_u32};
use itoa::Buffer;
use std::alloc::Global;

/// The host 10.0.0.5, which each realm has.
pub const HOST: Addr = Addr(0x0a00_0005);

/// The right host as the left one knows it: 192.168.200.1.
pub const RIGHT_HOST_ALIAS: Addr = Addr(0xc0a8_c801);

/// The left host as the right one knows it: 172.16.9.1.
pub const LEFT_HOST_ALIAS: Addr = Addr(0xac10_0901);

/// The name server 10.0.0.53 of the right realm.
pub const NAME_SERVER: Addr = Addr(0x0a00_0035);

/// The TCP option of a maximum segment size of 1460.
pub(crate) const SEGMENT_SIZE: [u8; 4] = [2, 4, 0x05, 0xb4];

/// From the left host to the right one, on the left.
pub(crate) fn leftward(source_port: u16, destination_port: u16) -> Flow
    ensures { result ≡ payloads.leftward source_port destination_port }
{
    Flow {
        source: HOST,
        source_port,
        destination: RIGHT_HOST_ALIAS,
        destination_port,
    }
}

/// The client's segments, on the left.
pub(crate) fn client_flow() -> Flow
    ensures { result ≡ payloads.client_flow }
{
    leftward(40_000, CONTROL_PORT)
}

/// The server's segments, on the right.
pub(crate) fn server_flow() -> Flow
    ensures { result ≡ payloads.server_flow }
{
    Flow {
        source: HOST,
        source_port: CONTROL_PORT,
        destination: LEFT_HOST_ALIAS,
        destination_port: 40_000,
    }
}

/// Plain UDP of round `k`.
pub(crate) fn plain_flow(k: u32) -> Flow
    ensures { result ≡ payloads.plain_flow k }
{
    leftward(4000 + (k % 1000) as u16, 5000)
}

/// The answers of the name server, on the right.
pub(crate) fn names_flow() -> Flow
    ensures { result ≡ payloads.names_flow }
{
    Flow {
        source: NAME_SERVER,
        source_port: DNS_PORT,
        destination: LEFT_HOST_ALIAS,
        destination_port: 4000,
    }
}

/// The line by which the client names the port 4 * 256 and this number.
pub(crate) fn port_line(alloc: Global, number: u64) -> Result<Vec<u8>, OutOfMemory>
    ensures text { IfOk result (λ line. line.items ≡ payloads.port_line number) }
    ensures short { IfOk result (λ line. length line.items ≤ 60) }
{
    let mut buffer = Buffer::new();
    let mut line = Vec::from_slice(alloc, b"PORT 10,0,0,5,4,")?;
    line.extend_from_slice(buffer.format(number).as_bytes())?;
    line.extend_from_slice(b"\r\n")?;
    Ok(line)
}

/// The place of the second address in the name server's answer.
const SECOND_ADDRESS: usize = 57;

/// The name server's answer: two addresses of `ftp.example`, the host's and this one.
pub(crate) fn names(address: u32) -> [u8; 72]
    ensures { result ≡ payloads.names address }
{
    let mut message = *b"\0\x01\x81\x80\0\x01\0\x02\0\0\0\x01\
        \x03ftp\x07example\0\0\x01\0\x01\
        \xc0\x0c\0\x01\0\x01\0\0\x0e\x10\0\x04\x0a\0\0\x05\
        \xc0\x0c\0\x01\0\x01\0\0\x0e\x10\0\x04\0\0\0\0\
        \0\0\x29\x04\xd0\0\0\x80\0\0\0";
    put_u32(&mut message, SECOND_ADDRESS, address);
    message
}

/// An SNMP trap whose agent is the host.
pub(crate) fn trap() -> [u8; 50]
    ensures { result ≡ payloads.trap }
{
    *b"\x30\x30\x02\x01\0\x04\x06public\xa4\x23\x06\x03\x2b\x06\x01\
        \x40\x04\x0a\0\0\x05\x02\x01\x06\x02\x01\x01\x43\x01\0\
        \x30\x0d\x30\x0b\x06\x03\x2b\x06\x01\x40\x04\x0a\0\0\x09"
}
