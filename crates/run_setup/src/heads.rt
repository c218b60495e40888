// The settings, and the heads of both captures.
ghost use Rattle.std.specs.Prelude.{◌≡◌, [], OnErr};
ghost use Rattle.pcap_merge.specs.Prelude.{TakenFor};
ghost use Rattle.run_setup.specs.Causes.{Opens};
ghost use Rattle.run_setup.specs.Beginning.{Settles, Merges, TookCaptures, TookSettings, settings_start, inputs_start};

use crate::Status;
use crate::open::start_slot;
use gate_desk::{Access, Desk, Slot, read_up_to};
use gate_settings::Settings;
use pcap_merge::Merge;
use settings_file::{LONGEST_SETTINGS, read_settings};
use std::alloc::Global;

/// Starts and reads the settings of a name.
pub fn read_settings_file<D: Desk>(
    alloc: Global,
    desk: &mut D,
    name: &str,
) -> Result<Settings, Status>
    ensures answer { Settles result (settings_start name.now) (D.outside desk.old)
        (D.outside desk.new) }
    ensures taken { OnErr result
        (TakenFor [] (D.outside desk.old) (D.outside desk.new)) }
    ensures settings { TookSettings (D.outside desk.old) (D.outside desk.new) }
{
    start_slot(desk, Slot::Settings, name, Access::Read)?;
    let text = read_up_to(alloc, desk, Slot::Settings, LONGEST_SETTINGS)?;
    let settings = read_settings(alloc, &text)?;
    Ok(settings)
}

/// Starts both captures that are read, the left one first.
fn open_inputs<D: Desk>(desk: &mut D, left: &str, right: &str) -> Result<(), Status>
    ensures answer { Opens result (inputs_start left.now right.now)
        (D.outside desk.old) (D.outside desk.new) }
    ensures left { (D.outside desk.new).left ≡ (D.outside desk.old).left }
{
    start_slot(desk, Slot::LeftIn, left, Access::Read)?;
    start_slot(desk, Slot::RightIn, right, Access::Read)
}

/// Starts the captures of both names, the left one first, and reads their heads.
pub fn begin<D: Desk>(alloc: Global, desk: &mut D, left: &str, right: &str) -> Result<Merge, Status>
    ensures answer { Merges result (inputs_start left.now right.now)
        (D.outside desk.old) (D.outside desk.new) }
    ensures taken { OnErr result
        (TakenFor [] (D.outside desk.old) (D.outside desk.new)) }
    ensures captures { TookCaptures (D.outside desk.old) (D.outside desk.new) }
{
    open_inputs(desk, left, right)?;
    let merge = Merge::begin(alloc, desk)?;
    Ok(merge)
}
