//! What a disk answers where it failed.
ghost use Rattle.std.specs.Prelude.{◌≡◌};
ghost use Rattle.fault_texts.specs.FaultText.{shown, IsBrief};
ghost use Rattle.disk_model.specs.Fault.{code_of, text_of};

use fault_texts::{CommonFault, FaultText};
use thiserror::Error;

/// Why a call of a disk failed.
#[derive(Clone, Copy, Debug, PartialEq, Eq, Error)]
#[error("{}", self.text())]
pub enum DiskFault {
    /// The device failed in this call.
    Device,
}

impl DiskFault {
    /// The number under which the fault is printed.
    pub fn code(&self) -> u8
        ensures { result ≡ code_of self.now }
    {
        match self {
            DiskFault::Device => CommonFault::Device.code(),
        }
    }

    /// The text that is printed after the number.
    pub fn text(&self) -> FaultText
        ensures text { shown result ≡ text_of self.now }
        ensures brief { IsBrief result }
    {
        match self {
            DiskFault::Device => CommonFault::Device.text(),
        }
    }
}
