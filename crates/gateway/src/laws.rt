// What holds of every run and make. The functions do nothing: their clauses are proved.
ghost use Rattle.std.specs.Prelude.{◌≡◌, ℕ, List, Err};
ghost use Rattle.gate_base.specs.declared.side.Side.{Side};
ghost use Rattle.gate_desk.specs.Outside.{Outside};
ghost use Rattle.gate_desk.specs.declared.slot.PerSlot.{PerSlot};
ghost use Rattle.settings_file.specs.Accepting.{settings_of};
ghost use Rattle.settings_file.specs.declared.fault.SettingsFault.{SettingsFault};
ghost use Rattle.gate_settings.specs.declared.settings.Settings.{Settings as GateSettings};
ghost use Rattle.pcap_files.specs.declared.fault.CaptureFault.{CaptureFault};
ghost use Rattle.pcap_merge.specs.Prelude.{Done as BothEnded, Fault as EndsFaulty};
ghost use Rattle.run_setup.specs.declared.status.Status.{Status};
ghost use Rattle.run_setup.specs.declared.status.Status.TheVariants.{Done, SettingsRefused, CaptureRefused};
ghost use Rattle.run_setup.specs.Prelude.{IsAccepted, events_in, NoneRose, IsUnlessMemory};
ghost use Rattle.run_setup.specs.RunNames.{Names};
ghost use Rattle.gateway.specs.Decided.{IsRunOf};
ghost use Rattle.gateway.specs.Making.{IsMake};
ghost use Rattle.std.specs.Prelude.{map};
ghost use Rattle.frag_join.specs.Prelude.{coming};
ghost use Rattle.gate_model.specs.Prelude.{opening_world, whole_rules};
ghost use Rattle.gate_model.specs.Sifted.{passing, all_out};
ghost use Rattle.gateway.specs.Machine.{arrivals_by, given_by_merged};
ghost use Rattle.gateway.specs.Sifted.{frames_among, frame_at};

/// Where no count rose, the settings and the captures decide the status of a run, but for want of memory. It refuses exactly the
/// first fault of the settings, and of accepted settings the fault that the merge of both captures meets. It is done where both
/// captures end. A make is done.
pub fn captures_decide()
    ensures settings { (all : PerSlot (List ℕ)) (status : Status) (names : Names)
        (old new : Outside) (fault : SettingsFault)
        → IsRunOf all status names old new
        → settings_of all.settings ≡ Err fault
        → IsUnlessMemory (SettingsRefused fault) status }
    ensures ended { (all : PerSlot (List ℕ)) (status : Status) (names : Names)
        (old new : Outside) (settings : GateSettings)
        → IsRunOf all status names old new
        → IsAccepted settings all
        → (events_in all).ending ≡ BothEnded
        → IsUnlessMemory Done status }
    ensures refused { (all : PerSlot (List ℕ)) (status : Status) (names : Names)
        (old new : Outside) (settings : GateSettings) (side : Side)
        (fault : CaptureFault) (place : ℕ)
        → IsRunOf all status names old new
        → IsAccepted settings all
        → (events_in all).ending ≡ EndsFaulty side fault place
        → IsUnlessMemory (CaptureRefused side fault place) status }
    ensures make { (status : Status) (number count : ℕ) (report : List ℕ)
        (old new : Outside)
        → IsMake status number count report old new
        → NoneRose old new
        → IsUnlessMemory Done status }
{}

/// Both outgoing captures hold what the frames that pass give by themselves, each datagram at its own event: what is refused at the
/// gate leaves no trace there.
pub fn refused_frames_write_nothing()
    ensures { (settings : GateSettings) (all : PerSlot (List ℕ))
        → let opening = opening_world settings in
        let events = coming (arrivals_by settings (events_in all).events) in
        frames_among (given_by_merged settings (events_in all))
        ≡ map (frame_at settings)
        (all_out whole_rules opening (passing whole_rules opening events)) }
{}
