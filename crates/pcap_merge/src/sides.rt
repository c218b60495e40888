// Reading the sides of a merge.
ghost use Rattle.std.specs.Prelude.{◌≡◌, None};
ghost use Rattle.gate_desk.specs.Outside.{CanRead};
ghost use Rattle.pcap_merge.specs.Inside.Sides.{ReadsSide, ReadsSides};
ghost use Rattle.pcap_merge.specs.Stops.{LeavesCounts, slot_of};

use crate::MergeStop;
use crate::order::{Last, is_unread};
use crate::stop::stop_of;
use gate_base::Side;
use gate_desk::Desk;
use pcap_files::CaptureReader;

/// Reads the next record of a side, where it is to be read.
#[inline(always)]
fn read_side<D: Desk>(
    desk: &mut D,
    side: Side,
    unread: bool,
    reader: &mut CaptureReader,
) -> Result<(), MergeStop>
    requires start { CanRead (D.outside desk.old) reader.old.slot }
    requires slot { reader.old.slot ≡ slot_of side }
    requires running { reader.old.stop ≡ None }
    ensures reads { ReadsSide result side unread reader.old reader.new
        (D.outside desk.old) (D.outside desk.new) }
    ensures leaves { LeavesCounts result (D.outside desk.old) (D.outside desk.new) }
{
    if !unread {
        return Ok(());
    }
    match reader.advance(desk) {
        Ok(_) => Ok(()),
        Err(stop) => Err(stop_of(side, stop)),
    }
}

/// Reads the sides that are to be read before the next event, left first.
#[inline(always)]
pub fn read_sides<D: Desk>(
    desk: &mut D,
    last: Last,
    left: &mut CaptureReader,
    right: &mut CaptureReader,
) -> Result<(), MergeStop>
    requires start_left { CanRead (D.outside desk.old) left.old.slot }
    requires start_right { CanRead (D.outside desk.old) right.old.slot }
    requires slot_left { left.old.slot ≡ slot_of Side.Left }
    requires slot_right { right.old.slot ≡ slot_of Side.Right }
    requires running_left { left.old.stop ≡ None }
    requires running_right { right.old.stop ≡ None }
    ensures reads { ReadsSides result last left.old left.new right.old right.new
        (D.outside desk.old) (D.outside desk.new) }
    ensures leaves { LeavesCounts result (D.outside desk.old) (D.outside desk.new) }
{
    read_side(desk, Side::Left, is_unread(Side::Left, last), left)?;
    read_side(desk, Side::Right, is_unread(Side::Right, last), right)
}
