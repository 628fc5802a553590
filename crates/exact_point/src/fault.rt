//! What the constructors of points refuse.
ghost use Rattle.std.specs.Prelude.{◌≡◌};
ghost use Rattle.fault_texts.specs.FaultText.{shown, IsBrief};
ghost use Rattle.exact_point.specs.Fault.{code_of, text_of};

use fault_texts::FaultText;
use thiserror::Error;

/// Why a point is refused.
#[derive(Clone, Copy, Debug, PartialEq, Eq, Error)]
#[error("{}", self.text())]
pub enum PointFault {
    PointRange,
}

impl PointFault {
    /// The number under which the fault is printed.
    pub fn code(&self) -> u8
        ensures { result ≡ code_of self.now }
    {
        match self {
            PointFault::PointRange => 20,
        }
    }

    /// The text that is printed after the number.
    pub fn text(&self) -> FaultText
        ensures text { shown result ≡ text_of self.now }
        ensures brief { IsBrief result }
    {
        match self {
            PointFault::PointRange => FaultText::Plain("point out of range"),
        }
    }
}
