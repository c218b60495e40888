// What holds of every audit. The function does nothing: its clauses are proved.
ghost use Rattle.std.specs.Prelude.{◌≡◌, ℕ, List, true, Err};
ghost use Rattle.gate_base.specs.declared.side.Side.{Side};
ghost use Rattle.gate_desk.specs.Outside.{Outside};
ghost use Rattle.gate_desk.specs.declared.slot.PerSlot.{PerSlot};
ghost use Rattle.settings_file.specs.Accepting.{settings_of};
ghost use Rattle.settings_file.specs.declared.fault.SettingsFault.{SettingsFault};
ghost use Rattle.gate_settings.specs.declared.settings.Settings.{Settings};
ghost use Rattle.pcap_files.specs.declared.fault.CaptureFault.{CaptureFault};
ghost use Rattle.pcap_merge.specs.Prelude.{Done as BothEnded, Fault as EndsFaulty, have_good_heads};
ghost use Rattle.lawful_files.specs.declared.reason.AuditReason.{AuditReason};
ghost use Rattle.run_setup.specs.declared.status.Status.{Status};
ghost use Rattle.run_setup.specs.declared.status.Status.TheVariants.{Done, SettingsRefused, CaptureRefused, Unlawful};
ghost use Rattle.run_setup.specs.AuditNames.{Names};
ghost use Rattle.run_setup.specs.Prelude.{IsAccepted, events_in, IsUnlessMemory};
ghost use Rattle.gateway_audit.specs.Causes.{AreLawful, IsFirstReason};
ghost use Rattle.gateway_audit.specs.Decided.{IsAuditOf};

/// Where no count rose, the files decide the status of an audit, but for want of memory. It is done exactly where both incoming
/// captures end and the given files are lawful, and unlawful exactly with the first reason. It refuses exactly the first fault of
/// the settings, and that of a capture behind lawful events.
pub fn files_decide()
    ensures settings { (all : PerSlot (List ℕ)) (status : Status) (names : Names)
        (old new : Outside) (fault : SettingsFault)
        → IsAuditOf all status names old new
        → settings_of all.settings ≡ Err fault
        → IsUnlessMemory (SettingsRefused fault) status }
    ensures lawful { (all : PerSlot (List ℕ)) (status : Status) (names : Names)
        (old new : Outside) (settings : Settings)
        → IsAuditOf all status names old new
        → IsAccepted settings all
        → (events_in all).ending ≡ BothEnded
        → AreLawful settings all
        → IsUnlessMemory Done status }
    ensures unlawful { (all : PerSlot (List ℕ)) (status : Status) (names : Names)
        (old new : Outside) (settings : Settings) (number : ℕ)
        (reason : AuditReason)
        → IsAuditOf all status names old new
        → IsAccepted settings all
        → have_good_heads all.left_in all.right_in ≡ true
        → IsFirstReason settings all number reason
        → IsUnlessMemory (Unlawful number reason) status }
    ensures refused { (all : PerSlot (List ℕ)) (status : Status) (names : Names)
        (old new : Outside) (settings : Settings) (side : Side)
        (fault : CaptureFault) (place : ℕ)
        → IsAuditOf all status names old new
        → IsAccepted settings all
        → (events_in all).ending ≡ EndsFaulty side fault place
        → (have_good_heads all.left_in all.right_in ≡ true → AreLawful settings all)
        → IsUnlessMemory (CaptureRefused side fault place) status }
{}
