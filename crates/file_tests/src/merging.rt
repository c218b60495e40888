// Five records whose stamps cross.
ghost use Rattle.std.specs.Prelude.{◌≡◌, OnOk};
ghost use Rattle.gate_desk.specs.Outside.{CanRead};

use gate_base::{SECOND, Side};
use gate_desk::{Access, Desk, Failed, Slot};
use memory_desks::MemoryDesk;
use pcap_merge::{Merge, MergeStop};
use std::alloc::{AllocError, Global};
use std::test::Fail;

const HEAD: [u8; 24] = [
    0xd4, 0xc3, 0xb2, 0xa1, 2, 0, 4, 0, 0, 0, 0, 0, 0, 0, 0, 0, 0, 0, 4, 0, 101, 0, 0, 0,
];

/// The side and the moment of each event, in seconds, and then the end.
const WANTED: [Option<(Side, u64)>; 6] = [
    Some((Side::Left, 5)),
    Some((Side::Left, 5)),
    Some((Side::Right, 5)),
    Some((Side::Right, 6)),
    Some((Side::Left, 7)),
    None,
];

/// A capture of empty frames at these seconds.
fn capture(alloc: Global, seconds: &[u8]) -> Result<Vec<u8>, AllocError> {
    let mut octets = HEAD.to_vec(alloc)?;
    for second in seconds {
        octets.push(*second)?;
        octets.extend_from_slice(&[0; 15])?;
    }
    Ok(octets)
}

fn start<D: Desk>(desk: &mut D) -> Result<(), Failed>
    ensures left { OnOk result (CanRead (D.outside desk.new) Slot.LeftIn) }
    ensures right { OnOk result (CanRead (D.outside desk.new) Slot.RightIn) }
{
    desk.start(Slot::LeftIn, "left", Access::Read)?;
    desk.start(Slot::RightIn, "right", Access::Read)?;
    Ok(())
}

/// The side and the moment of the next event, in seconds.
fn next<D: Desk>(merge: &mut Merge, desk: &mut D) -> Result<Option<(Side, u64)>, MergeStop>
    requires left { CanRead (D.outside desk.old) Slot.LeftIn }
    requires right { CanRead (D.outside desk.old) Slot.RightIn }
    ensures { OnOk result
        ((D.outside desk.new).starts ≡ (D.outside desk.old).starts) }
{
    match merge.advance(desk) {
        Ok(true) => {
            let event = merge.event();
            Ok(Some((event.side, event.moment.0 / SECOND)))
        }
        Ok(false) => Ok(None),
        Err(stop) => Err(stop),
    }
}

/// Whether the merge goes on by these answers.
fn goes_on<D: Desk>(
    merge: &mut Merge,
    desk: &mut D,
    wanted: &[Option<(Side, u64)>],
) -> Result<bool, MergeStop>
    requires left { CanRead (D.outside desk.old) Slot.LeftIn }
    requires right { CanRead (D.outside desk.old) Slot.RightIn }
{
    'answers: for answer in wanted {
        if next(merge, desk)? != *answer {
            return Ok(false);
        }
    }
    Ok(true)
}

fn merges<D: Desk>(
    alloc: Global,
    desk: &mut D,
    wanted: &[Option<(Side, u64)>],
) -> Result<bool, MergeStop> {
    if start(desk).is_err() {
        return Ok(false);
    }
    let mut merge = Merge::begin(alloc, desk)?;
    goes_on(&mut merge, desk, wanted)
}

fn merges_captures(alloc: Global) -> Result<bool, Fail> {
    let left = capture(alloc, &[5, 4, 7])?;
    let right = capture(alloc, &[5, 6])?;
    let mut desk = MemoryDesk::new(alloc, Vec::new(alloc), left, right)?;
    Ok(merges(alloc, &mut desk, &WANTED) == Ok(true))
}

#[test]
fn merges_by_stamps(rt: HostRuntime) -> Result<(), Fail> {
    assert!(rt; merges_captures(rt.alloc())?);
    Ok(())
}
