//! Why a file is not opened.
ghost use Rattle.std.specs.Prelude.{◌≡◌};
ghost use Rattle.root_reading.specs.Looking.{reported_as};
ghost use Rattle.root_reading.specs.declared.load_fault.LoadFault.TheVariants.{Device, Damaged, OutOfMemory};

use disk_model::fault::DiskFault;
use record_reading::fault::RecordFault;
use std::alloc::{AllocError, AllocFailed};
use store_terms::damage::Damage;

/// Why the content of a file is not read.
#[derive(Clone, Copy, Debug)]
pub enum LoadFault {
    /// The device failed in the call.
    Device,
    Damaged(Damage),
    OutOfMemory,
}

impl From<DiskFault> for LoadFault {
    ghost from_gives = { λ _ e. e ≡ Device };

    fn from(_e: DiskFault) -> LoadFault {
        LoadFault::Device
    }
}

impl From<Damage> for LoadFault {
    ghost from_gives = { λ damage e. e ≡ Damaged damage };

    fn from(damage: Damage) -> LoadFault {
        LoadFault::Damaged(damage)
    }
}

impl From<RecordFault> for LoadFault {
    ghost from_gives = { λ fault e. e ≡ reported_as fault };

    fn from(fault: RecordFault) -> LoadFault {
        match fault {
            RecordFault::Damaged(damage) => LoadFault::Damaged(damage),
            RecordFault::OutOfMemory => LoadFault::OutOfMemory,
        }
    }
}

impl From<AllocError> for LoadFault {
    ghost from_gives = { λ _ e. e ≡ OutOfMemory };

    fn from(_e: AllocError) -> LoadFault {
        LoadFault::OutOfMemory
    }
}

impl<T: Drop> From<AllocFailed<T>> for LoadFault {
    ghost from_gives = { λ _ e. e ≡ OutOfMemory };

    fn from(_e: AllocFailed<T>) -> LoadFault {
        LoadFault::OutOfMemory
    }
}
