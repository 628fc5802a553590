//! What a store refuses.
ghost use Rattle.std.specs.Prelude.{◌≡◌};
ghost use Rattle.fault_texts.specs.FaultText.{shown, IsBrief};
ghost use Rattle.commit_plan.specs.Fault.{code_of, text_of, fault_of_extents, store_fault_of};
ghost use Rattle.commit_plan.specs.declared.fault.StoreFault.TheVariants.{Device, OutOfMemory};

use disk_model::fault::DiskFault;
use extent_map::fault::ExtentFault;
use fault_texts::{CommonFault, FaultText};
use record_reading::fault::RecordFault;
use root_reading::load_fault::LoadFault;
use std::alloc::{AllocError, AllocFailed};
use store_terms::damage::Damage;
use thiserror::Error;

/// Why a store is not made, not opened, or takes no commit.
#[derive(Clone, Copy, Debug, PartialEq, Eq, Error)]
#[error("{}", self.text())]
pub enum StoreFault {
    /// The device failed in this call.
    Device,
    /// Some record finds no run of free blocks.
    Full,
    /// What is wrong with the file: that it is no store, or what of it is damaged.
    Damaged(Damage),
    /// A store is made of an empty file alone.
    NotEmpty,
    /// The device failed in an earlier call; the disk has to be opened again.
    Failed,
    /// The last commit had the greatest number.
    SequenceLimit,
    OutOfMemory,
}

impl StoreFault {
    /// The number under which the fault is printed: 30 to 36 or 40.
    pub fn code(&self) -> u8
        ensures { result ≡ code_of self.now }
    {
        match self {
            StoreFault::Device => CommonFault::Device.code(),
            StoreFault::Full => CommonFault::Full.code(),
            StoreFault::Damaged(damage) => RecordFault::Damaged(*damage).code(),
            StoreFault::NotEmpty => 34,
            StoreFault::Failed => CommonFault::StoreFailed.code(),
            StoreFault::SequenceLimit => CommonFault::SequenceLimit.code(),
            StoreFault::OutOfMemory => CommonFault::OutOfMemory.code(),
        }
    }

    /// The text that is printed after the number.
    pub fn text(&self) -> FaultText
        ensures text { shown result ≡ text_of self.now }
        ensures brief { IsBrief result }
    {
        match self {
            StoreFault::Device => CommonFault::Device.text(),
            StoreFault::Full => CommonFault::Full.text(),
            StoreFault::Damaged(damage) => RecordFault::Damaged(*damage).text(),
            StoreFault::NotEmpty => FaultText::Plain("not empty"),
            StoreFault::Failed => CommonFault::StoreFailed.text(),
            StoreFault::SequenceLimit => CommonFault::SequenceLimit.text(),
            StoreFault::OutOfMemory => CommonFault::OutOfMemory.text(),
        }
    }
}

impl From<DiskFault> for StoreFault {
    ghost from_gives = { λ _ e. e ≡ Device };

    fn from(_: DiskFault) -> StoreFault {
        StoreFault::Device
    }
}

impl From<ExtentFault> for StoreFault {
    ghost from_gives = { λ fault e. e ≡ fault_of_extents fault };

    fn from(fault: ExtentFault) -> StoreFault {
        match fault {
            ExtentFault::Full => StoreFault::Full,
            ExtentFault::Overlap => StoreFault::Damaged(Damage::Overlap),
            ExtentFault::OutOfMemory => StoreFault::OutOfMemory,
        }
    }
}

impl From<AllocError> for StoreFault {
    ghost from_gives = { λ _ e. e ≡ OutOfMemory };

    fn from(_e: AllocError) -> StoreFault {
        StoreFault::OutOfMemory
    }
}

impl<T: Drop> From<AllocFailed<T>> for StoreFault {
    ghost from_gives = { λ _ e. e ≡ OutOfMemory };

    fn from(_e: AllocFailed<T>) -> StoreFault {
        StoreFault::OutOfMemory
    }
}

/// A fault of reading as one of the store.
pub fn store_fault_of(fault: LoadFault) -> StoreFault
    ensures { result ≡ store_fault_of fault }
{
    match fault {
        LoadFault::Device => StoreFault::Device,
        LoadFault::Damaged(damage) => StoreFault::Damaged(damage),
        LoadFault::OutOfMemory => StoreFault::OutOfMemory,
    }
}
