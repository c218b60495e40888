// The first record of a capture in two forms, and a torn one.
ghost use Rattle.std.specs.Prelude.{◌≤◌, OnOk};
ghost use Rattle.gate_desk.specs.Outside.{CanRead, CanWrite};

use gate_base::{Link, Moment};
use gate_desk::{Access, Desk, Failed, Slot};
use memory_desks::MemoryDesk;
use pcap_files::{CaptureFault, CaptureReader, ReadStop, write_head, write_packet};
use std::alloc::Global;
use std::test::Fail;

const FRAME: [u8; 30] = [
    0x45, 0, 0, 0x1e, 0, 1, 0x40, 0, 0x40, 0x11, 0xa8, 0x1f, 10, 0, 0, 5, 0xc0, 0xa8, 0xc8, 1,
    0x0f, 0xa1, 0x13, 0x88, 0, 0x0a, 0xe1, 0x99, 0x68, 0x69,
];

const LITTLE_MICROSECONDS: [u8; 40] = [
    0xd4, 0xc3, 0xb2, 0xa1, 2, 0, 4, 0, 0, 0, 0, 0, 0, 0, 0, 0, 0, 0, 4, 0, 0x65, 0, 0, 0, 1, 0, 0,
    0, 0, 0, 0, 0, 0x1e, 0, 0, 0, 0x1e, 0, 0, 0,
];

const BIG_NANOSECONDS: [u8; 40] = [
    0xa1, 0xb2, 0x3c, 0x4d, 0, 2, 0, 4, 0, 0, 0, 0, 0, 0, 0, 0, 0, 4, 0, 0, 0, 0, 0, 0x65, 0, 0, 0,
    1, 0, 0, 0, 0, 0, 0, 0, 0x1e, 0, 0, 0, 0x1e,
];

const WRITTEN: [u8; 40] = [
    0x4d, 0x3c, 0xb2, 0xa1, 2, 0, 4, 0, 0, 0, 0, 0, 0, 0, 0, 0, 0, 0, 4, 0, 0x65, 0, 0, 0, 1, 0, 0,
    0, 0, 0, 0, 0, 0x1e, 0, 0, 0, 0x1e, 0, 0, 0,
];

fn start<D: Desk>(desk: &mut D) -> Result<(), Failed>
    ensures read { OnOk result (CanRead (D.outside desk.new) Slot.LeftIn) }
    ensures write { OnOk result (CanWrite (D.outside desk.new) Slot.RightOut) }
{
    desk.start(Slot::RightOut, "right", Access::Write)?;
    desk.start(Slot::LeftIn, "left", Access::Read)?;
    Ok(())
}

/// Copies the first record of the left capture to the right one.
fn copy_first<D: Desk>(alloc: Global, desk: &mut D) -> Result<(), ReadStop> {
    if start(desk).is_err() {
        return Err(ReadStop::Desk(Slot::LeftIn));
    }
    let mut reader = CaptureReader::begin(alloc, desk, Slot::LeftIn)?;
    if write_head(desk, Slot::RightOut, reader.link()).is_err() {
        return Err(ReadStop::Desk(Slot::RightOut));
    }
    if !reader.advance(desk)? {
        return Ok(());
    }
    let packet = reader.packet();
    match write_packet(
        desk,
        Slot::RightOut,
        Moment(packet.stamp),
        &[],
        packet.octets,
    ) {
        Ok(()) => Ok(()),
        Err(_) => Err(ReadStop::Desk(Slot::RightOut)),
    }
}

/// Whether the first record is copied: the answer, and how many octets were written.
fn copied(alloc: Global, head: &[u8], kept: usize) -> Result<(Result<(), ReadStop>, Vec<u8>), Fail>
    requires { kept ≤ 30 }
{
    let mut left = head.to_vec(alloc)?;
    left.extend_from_slice(&FRAME[..kept])?;
    let mut desk = MemoryDesk::new(alloc, Vec::new(alloc), left, Vec::new(alloc))?;
    let answer = copy_first(alloc, &mut desk);
    Ok((answer, desk.output(Slot::RightOut).to_vec(alloc)?))
}

#[test]
fn copies_the_first_record(rt: HostRuntime) -> Result<(), Fail> {
    let alloc = rt.alloc();
    let mut written = WRITTEN.to_vec(alloc)?;
    written.extend_from_slice(&FRAME)?;
    for head in [&LITTLE_MICROSECONDS, &BIG_NANOSECONDS] {
        let (answer, output) = copied(alloc, head, 30)?;
        assert!(rt; answer.is_ok() && output == written);
    }
    let (answer, output) = copied(alloc, &LITTLE_MICROSECONDS, 10)?;
    assert_eq!(rt; answer, Err(ReadStop::Fault(CaptureFault::Torn, 24)));
    assert!(rt; output.as_slice() == &WRITTEN[..24]);
    Ok(())
}
