//! Why a command is refused.
ghost use Rattle.std.specs.Prelude.{◌≡◌};
ghost use Rattle.fault_texts.specs.FaultText.{shown, IsBrief};
ghost use Rattle.layer_book.specs.Fault.{code_of, text_of};
ghost use Rattle.layer_book.specs.declared.fault.LayerFault.TheVariants.{OutOfMemory};

use fault_texts::{CommonFault, FaultText};
use std::alloc::AllocError;
use thiserror::Error;

/// Why a command on the layers, or a question about them, is refused.
#[derive(Clone, Copy, Debug, PartialEq, Eq, Error)]
#[error("{}", self.text())]
pub enum LayerFault {
    UnknownLayer,
    NotBase,
    NotDerived,
    LaterLayer,
    InUse,
    TooManyLayers,
    VersionLimit,
    /// A batch of no command, or of too many.
    BatchSize,
    /// No column has the number.
    BadColumn,
    OutOfMemory,
}

impl LayerFault {
    /// The number under which the fault is printed: 10 to 17, 23 or 40.
    pub fn code(&self) -> u8
        ensures { result ≡ code_of self.now }
    {
        match self {
            LayerFault::UnknownLayer => 10,
            LayerFault::NotBase => 11,
            LayerFault::NotDerived => 12,
            LayerFault::LaterLayer => 13,
            LayerFault::InUse => 14,
            LayerFault::TooManyLayers => 15,
            LayerFault::VersionLimit => 16,
            LayerFault::BatchSize => 17,
            LayerFault::BadColumn => 23,
            LayerFault::OutOfMemory => CommonFault::OutOfMemory.code(),
        }
    }

    /// The text that is printed after the number.
    pub fn text(&self) -> FaultText
        ensures text { shown result ≡ text_of self.now }
        ensures brief { IsBrief result }
    {
        match self {
            LayerFault::UnknownLayer => FaultText::Plain("unknown layer"),
            LayerFault::NotBase => FaultText::Plain("not a base layer"),
            LayerFault::NotDerived => FaultText::Plain("not a derived layer"),
            LayerFault::LaterLayer => FaultText::Plain("later layer"),
            LayerFault::InUse => FaultText::Plain("in use"),
            LayerFault::TooManyLayers => FaultText::Plain("too many layers"),
            LayerFault::VersionLimit => FaultText::Plain("version limit"),
            LayerFault::BatchSize => FaultText::Plain("batch size"),
            LayerFault::BadColumn => FaultText::Plain("bad column"),
            LayerFault::OutOfMemory => CommonFault::OutOfMemory.text(),
        }
    }
}

impl From<AllocError> for LayerFault {
    ghost from_gives = { λ _ e. e ≡ OutOfMemory };

    fn from(_e: AllocError) -> LayerFault {
        LayerFault::OutOfMemory
    }
}
