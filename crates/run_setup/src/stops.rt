// The status of a part that stopped.
ghost use Rattle.std.specs.Prelude.{◌≡◌};

use crate::Status;
use gate_base::OutOfMemory;
use gate_desk::TakeStop;
use pcap_merge::MergeStop;
use settings_file::ReadSettings;

impl From<OutOfMemory> for Status {
    ghost use Rattle.run_setup.specs.declared.status.Status.TheVariants.{OutOfMemory as MemoryOut};

    ghost from_gives = { λ _ status. status ≡ MemoryOut };

    fn from(_stop: OutOfMemory) -> Status {
        Status::OutOfMemory
    }
}

impl From<TakeStop> for Status {
    ghost use Rattle.run_setup.specs.Stops.{status_of_take};

    ghost from_gives = { λ stop status. status ≡ status_of_take stop };

    fn from(stop: TakeStop) -> Status {
        match stop {
            TakeStop::Desk(slot) => Status::ReadFault(slot),
            TakeStop::OutOfMemory => Status::OutOfMemory,
        }
    }
}

impl From<ReadSettings> for Status {
    ghost use Rattle.run_setup.specs.Stops.{status_of_settings};

    ghost from_gives = { λ stop status. status ≡ status_of_settings stop };

    fn from(stop: ReadSettings) -> Status {
        match stop {
            ReadSettings::Fault(fault) => Status::SettingsRefused(fault),
            ReadSettings::OutOfMemory => Status::OutOfMemory,
        }
    }
}

impl From<MergeStop> for Status {
    ghost use Rattle.run_setup.specs.Stops.{status_of_merge};

    ghost from_gives = { λ stop status. status ≡ status_of_merge stop };

    fn from(stop: MergeStop) -> Status {
        match stop {
            MergeStop::Fault(side, fault, place) => Status::CaptureRefused(side, fault, place),
            MergeStop::Desk(slot) => Status::ReadFault(slot),
            MergeStop::OutOfMemory => Status::OutOfMemory,
        }
    }
}
