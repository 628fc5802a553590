//! Why blocks are refused.
ghost use Rattle.std.specs.Prelude.{◌≡◌};
ghost use Rattle.fault_texts.specs.FaultText.{shown, IsBrief};
ghost use Rattle.extent_map.specs.Fault.{code_of, text_of};
ghost use Rattle.extent_map.specs.declared.fault.ExtentFault.TheVariants.{OutOfMemory};

use fault_texts::{CommonFault, FaultText};
use std::alloc::{AllocError, AllocFailed};
use thiserror::Error;

/// Why extents are refused, or no place is found.
#[derive(Clone, Copy, Debug, PartialEq, Eq, Error)]
#[error("{}", self.text())]
pub enum ExtentFault {
    /// Some length finds no free run.
    Full,
    /// Two extents have a block in common.
    Overlap,
    OutOfMemory,
}

impl ExtentFault {
    /// The number under which the fault is printed.
    pub fn code(&self) -> u8
        ensures { result ≡ code_of self.now }
    {
        match self {
            ExtentFault::Full => CommonFault::Full.code(),
            ExtentFault::Overlap => 33,
            ExtentFault::OutOfMemory => CommonFault::OutOfMemory.code(),
        }
    }

    /// The text that is printed after the number.
    pub fn text(&self) -> FaultText
        ensures text { shown result ≡ text_of self.now }
        ensures brief { IsBrief result }
    {
        match self {
            ExtentFault::Full => CommonFault::Full.text(),
            ExtentFault::Overlap => FaultText::At("damaged ", 9),
            ExtentFault::OutOfMemory => CommonFault::OutOfMemory.text(),
        }
    }
}

impl From<AllocError> for ExtentFault {
    ghost from_gives = { λ _ e. e ≡ OutOfMemory };

    fn from(_e: AllocError) -> ExtentFault {
        ExtentFault::OutOfMemory
    }
}

impl<T: Drop> From<AllocFailed<T>> for ExtentFault {
    ghost from_gives = { λ _ e. e ≡ OutOfMemory };

    fn from(_e: AllocFailed<T>) -> ExtentFault {
        ExtentFault::OutOfMemory
    }
}
