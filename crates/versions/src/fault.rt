//! Why a question about a version, or a change of it, is refused.
ghost use Rattle.std.specs.Prelude.{◌≡◌};
ghost use Rattle.fault_texts.specs.FaultText.{shown, IsBrief};
ghost use Rattle.versions.specs.Fault.{code_of, text_of};
ghost use Rattle.versions.specs.declared.fault.VersionFault.TheVariants.{Layer};
ghost use Rattle.layer_book.specs.declared.fault.LayerFault.TheVariants.{OutOfMemory};

use fault_texts::FaultText;
use layer_book::fault::LayerFault;
use std::alloc::{AllocError, AllocFailed};
use thiserror::Error;

/// Why a call on a version is refused.
#[derive(Clone, Copy, Debug, PartialEq, Eq, Error)]
#[error("{}", self.text())]
pub enum VersionFault {
    Layer(LayerFault),
    /// The tile is not finished.
    Pending,
    /// The tile has too many pieces.
    Oversize,
}

impl VersionFault {
    /// The number under which the fault is printed: 21, 22 or that of its cause.
    pub fn code(&self) -> u8
        ensures { result ≡ code_of self.now }
    {
        match self {
            VersionFault::Layer(fault) => fault.code(),
            VersionFault::Pending => 21,
            VersionFault::Oversize => 22,
        }
    }

    /// The text that is printed after the number.
    pub fn text(&self) -> FaultText
        ensures text { shown result ≡ text_of self.now }
        ensures brief { IsBrief result }
    {
        match self {
            VersionFault::Layer(fault) => fault.text(),
            VersionFault::Pending => FaultText::Plain("pending"),
            VersionFault::Oversize => FaultText::Plain("oversize"),
        }
    }
}

impl From<LayerFault> for VersionFault {
    ghost from_gives = { λ fault e. e ≡ Layer fault };

    fn from(fault: LayerFault) -> VersionFault {
        VersionFault::Layer(fault)
    }
}

impl From<AllocError> for VersionFault {
    ghost from_gives = { λ _ e. e ≡ Layer OutOfMemory };

    fn from(_e: AllocError) -> VersionFault {
        VersionFault::Layer(LayerFault::OutOfMemory)
    }
}

impl<T: Drop> From<AllocFailed<T>> for VersionFault {
    ghost from_gives = { λ _ e. e ≡ Layer OutOfMemory };

    fn from(_e: AllocFailed<T>) -> VersionFault {
        VersionFault::Layer(LayerFault::OutOfMemory)
    }
}
