// Captures, written to a desk's slot: little-endian, fractions in nanoseconds.
ghost use Rattle.std.specs.Prelude.{◌≡◌, ◌+◌, ◌≤◌, ◌++◌, length, take, OnOk, OnErr};
ghost use Rattle.gate_base.specs.Prelude.{IsMoment};
ghost use Rattle.gate_desk.specs.Outside.{Writes, WritesPart, HasFailed, CanWrite};
ghost use Rattle.pcap_files.specs.Capture.{link_number};
ghost use Rattle.pcap_files.specs.Spelling.{head_octets, record_octets, record_head};

use crate::record::{LONGEST_RECORD, RECORD_HEAD};
use byteorder::{ByteOrder, LittleEndian};
use gate_base::{Link, Moment, SECOND};
use gate_desk::{Desk, Failed, Slot, write_whole};

fn link_octet(link: Link) -> u8
    ensures { result ≡ link_number link }
{
    match link {
        Link::Ethernet => 1,
        Link::Raw => 101,
    }
}

fn head_of_capture(link: Link) -> [u8; 24]
    ensures { result ≡ head_octets link }
{
    let link = link_octet(link);
    [
        0x4d, 0x3c, 0xb2, 0xa1, 2, 0, 4, 0, 0, 0, 0, 0, 0, 0, 0, 0, 0, 0, 4, 0, link, 0, 0, 0,
    ]
}

/// Writes the head of a capture. Failed comes only where the count of the slot rose; a prefix of the head was written then.
pub fn write_head<D: Desk>(desk: &mut D, slot: Slot, link: Link) -> Result<(), Failed>
    requires { CanWrite (D.outside desk.old) slot }
    ensures ok { OnOk result
        (Writes slot (head_octets link) (D.outside desk.old) (D.outside desk.new)) }
    ensures err { OnErr result (WritesPart slot (head_octets link)
        (D.outside desk.old) (D.outside desk.new)) }
    ensures cause { OnErr result
        (HasFailed slot (D.outside desk.old) (D.outside desk.new)) }
    ensures leaves { OnOk result
        ((D.outside desk.new).faults ≡ (D.outside desk.old).faults) }
{
    write_whole(desk, slot, &head_of_capture(link))
}

fn head_of_record(moment: Moment, kept: u32) -> [u8; 16]
    requires { IsMoment moment.0 }
    ensures { result ≡ record_head moment.0 kept }
{
    let mut head = [0; RECORD_HEAD];
    LittleEndian::write_u32(&mut head[..4], (moment.0 / SECOND) as u32);
    LittleEndian::write_u32(&mut head[4..8], (moment.0 % SECOND) as u32);
    LittleEndian::write_u32(&mut head[8..12], kept);
    LittleEndian::write_u32(&mut head[12..], kept);
    head
}

/// Writes a frame, the head of its link and what that carries, as a record at a moment: a moment below 2^32 times 10^9, at most
/// 262,144 octets. Failed comes only where the count of the slot rose; a prefix of the record was written then.
#[inline(always)]
pub fn write_packet<D: Desk>(
    desk: &mut D,
    slot: Slot,
    moment: Moment,
    head: &[u8],
    octets: &[u8],
) -> Result<(), Failed>
    requires can { CanWrite (D.outside desk.old) slot }
    requires early { IsMoment moment.0 }
    requires short { length head.now + length octets.now ≤ LONGEST_RECORD }
    ensures ok { OnOk result (Writes slot
        (record_octets moment.0 (head.now ++ octets.now)) (D.outside desk.old)
        (D.outside desk.new)) }
    ensures err { OnErr result (WritesPart slot
        (record_octets moment.0 (head.now ++ octets.now)) (D.outside desk.old)
        (D.outside desk.new)) }
    ensures cause { OnErr result
        (HasFailed slot (D.outside desk.old) (D.outside desk.new)) }
    ensures leaves { OnOk result
        ((D.outside desk.new).faults ≡ (D.outside desk.old).faults) }
{
    let front = head_of_record(moment, (head.len() + octets.len()) as u32);
    if head.is_empty() {
        return desk.write_both(slot, &front, octets);
    }
    write_behind(desk, slot, &front, head, octets)
}

/// Writes the head of a record, and then the two parts of a frame.
#[inline(always)]
fn write_behind<D: Desk>(
    desk: &mut D,
    slot: Slot,
    front: &[u8],
    head: &[u8],
    octets: &[u8],
) -> Result<(), Failed>
    requires { CanWrite (D.outside desk.old) slot }
    ensures ok { OnOk result (Writes slot (front.now ++ head.now ++ octets.now)
        (D.outside desk.old) (D.outside desk.new)) }
    ensures err { OnErr result (WritesPart slot (front.now ++ head.now ++ octets.now)
        (D.outside desk.old) (D.outside desk.new)) }
    ensures cause { OnErr result
        (HasFailed slot (D.outside desk.old) (D.outside desk.new)) }
    ensures leaves { OnOk result
        ((D.outside desk.new).faults ≡ (D.outside desk.old).faults) }
{
    desk.write_both(slot, front, head)?;
    write_whole(desk, slot, octets)
}
