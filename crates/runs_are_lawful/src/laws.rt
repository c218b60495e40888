// The law that the files of a run are lawful. The function does nothing: its clauses are proved.
ghost use Rattle.std.specs.Prelude.{◌≡◌, ◌++◌, List, ℕ, Some, true};
ghost use Rattle.gate_desk.specs.Outside.{told_at};
ghost use Rattle.gate_desk.specs.Slots.{at};
ghost use Rattle.gate_desk.specs.declared.slot.PerSlot.{PerSlot};
ghost use Rattle.gate_desk.specs.declared.slot.Slot.{Slot};
ghost use Rattle.gate_desk.specs.declared.slot.Slot.TheVariants.{LeftOut, RightOut, Report};
ghost use Rattle.gate_settings.specs.declared.settings.Settings.{Settings};
ghost use Rattle.pcap_merge.specs.Prelude.{Done, have_good_heads};
ghost use Rattle.run_setup.specs.Prelude.{IsAccepted, events_in};
ghost use Rattle.gateway.specs.Prelude.{outputs_of, Piece, wrote_pieces};
ghost use Rattle.lawful_files.specs.Prelude.{LawfulFor};
ghost use Rattle.runs_are_lawful.specs.Outputs.{octets_to, IsOctets, OutputsFit};

/// For accepted settings and captures of octets, the files that a run writes are lawful for the captures, where neither
/// outgoing capture has more octets than a capture may have. Where a capture is faulty behind good heads, they are lawful as
/// far as the events go. What stands written on a slot is what stood there, and the octets of the slot's pieces.
pub fn own_files_are_lawful()
    ensures done { (all : PerSlot (List ℕ)) (settings : Settings)
        → IsAccepted settings all
        → IsOctets all
        → (events_in all).ending ≡ Done
        → let pieces = outputs_of settings all in OutputsFit pieces
        → LawfulFor settings (events_in all) (octets_to LeftOut pieces)
        (octets_to RightOut pieces) (octets_to Report pieces) }
    ensures faulty { (all : PerSlot (List ℕ)) (settings : Settings)
        → IsAccepted settings all
        → IsOctets all
        → have_good_heads all.left_in all.right_in ≡ true
        → let pieces = outputs_of settings all in OutputsFit pieces
        → LawfulFor settings (events_in all) (octets_to LeftOut pieces)
        (octets_to RightOut pieces) (octets_to Report pieces) }
    ensures written { (pieces : List Piece) (told : PerSlot (List ℕ)) (slot : Slot)
        → told_at (wrote_pieces pieces (Some told)) slot
        ≡ Some (at told slot ++ octets_to slot pieces) }
{}
