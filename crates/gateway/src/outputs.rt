// The outputs of a run: they are started, and both heads are written.
ghost use Rattle.std.specs.Prelude.{◌≡◌};
ghost use Rattle.run_setup.specs.Prelude.{Opens};
ghost use Rattle.run_setup.specs.RunNames.{names_of, output_starts};
ghost use Rattle.gate_desk.specs.declared.slot.Slot.TheVariants.{LeftOut, RightOut};
ghost use Rattle.gate_desk.specs.Outside.{CanWrite};
ghost use Rattle.gateway.specs.Inside.Causes.{WritesPieces};
ghost use Rattle.gateway.specs.Machine.{heads};
ghost use Rattle.gateway.specs.Inside.Phases.{Readies};

use gate_desk::{Access, Desk, Slot};
use gate_settings::Settings;
use pcap_files::write_head;
use run_setup::{FileNames, Status, start_slot};

/// Starts both captures that are written, the left one first, and the report.
fn open_outputs<D: Desk>(desk: &mut D, names: FileNames<'_>) -> Result<(), Status>
    ensures answer { Opens result (output_starts (names_of names.entry))
        (D.outside desk.old) (D.outside desk.new) }
    ensures left { (D.outside desk.new).left ≡ (D.outside desk.old).left }
{
    start_slot(desk, Slot::LeftOut, names.left_out, Access::Write)?;
    start_slot(desk, Slot::RightOut, names.right_out, Access::Write)?;
    start_slot(desk, Slot::Report, names.report, Access::Write)
}

/// Writes the heads of both captures, the left one first.
fn write_heads<D: Desk>(desk: &mut D, settings: &Settings) -> Result<(), Status>
    requires left { CanWrite (D.outside desk.old) LeftOut }
    requires right { CanWrite (D.outside desk.old) RightOut }
    ensures { WritesPieces result (heads settings.now) (D.outside desk.old)
        (D.outside desk.new) }
{
    match write_head(desk, Slot::LeftOut, settings.left.link) {
        Ok(()) => {}
        Err(_) => return Err(Status::WriteFault(Slot::LeftOut)),
    }
    match write_head(desk, Slot::RightOut, settings.right.link) {
        Ok(()) => Ok(()),
        Err(_) => Err(Status::WriteFault(Slot::RightOut)),
    }
}

/// Starts the outputs and writes both heads.
pub fn ready<D: Desk>(desk: &mut D, names: FileNames<'_>, settings: &Settings) -> Result<(), Status>
    ensures answer { Readies result settings.now
        (output_starts (names_of names.entry)) (D.outside desk.old)
        (D.outside desk.new) }
    ensures left { (D.outside desk.new).left ≡ (D.outside desk.old).left }
{
    open_outputs(desk, names)?;
    write_heads(desk, settings)
}
