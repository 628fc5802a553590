//! What the constructors of the plane refuse.
ghost use Rattle.std.specs.Prelude.{◌≡◌, ℕ};
ghost use Rattle.fault_texts.specs.FaultText.{shown, IsBrief};
ghost use Rattle.plane_base.specs.Fault.{code_of, text_of};
ghost use Rattle.plane_base.specs.declared.fault.PlaneFault.TheVariants.{OutOfMemory};

use fault_texts::{CommonFault, FaultText};
use std::alloc::AllocError;
use thiserror::Error;

/// Why a point or a base layer is refused.
#[derive(Clone, Copy, Debug, PartialEq, Eq, Error)]
#[error("{}", self.text())]
pub enum PlaneFault {
    CoordRange,
    /// A ring, counted from 0, whose last point is not its first.
    RingOpen(usize),
    /// A ring, counted from 0, of fewer than four points.
    RingShort(usize),
    TooManySegments,
    OutOfMemory,
}

impl PlaneFault {
    /// The number under which the fault is printed.
    pub fn code(&self) -> u8
        ensures { result ≡ code_of self.now }
    {
        match self {
            PlaneFault::CoordRange => 3,
            PlaneFault::RingOpen(_) => 4,
            PlaneFault::RingShort(_) => 5,
            PlaneFault::TooManySegments => 6,
            PlaneFault::OutOfMemory => CommonFault::OutOfMemory.code(),
        }
    }

    /// The text that is printed after the number.
    pub fn text(&self) -> FaultText
        ensures text { shown result ≡ text_of self.now }
        ensures brief { IsBrief result }
    {
        match self {
            PlaneFault::CoordRange => FaultText::Plain("coordinate out of range"),
            PlaneFault::RingOpen(ring) => FaultText::Ring(*ring, " open"),
            PlaneFault::RingShort(ring) => FaultText::Ring(*ring, " short"),
            PlaneFault::TooManySegments => FaultText::Plain("too many segments"),
            PlaneFault::OutOfMemory => CommonFault::OutOfMemory.text(),
        }
    }
}

impl From<AllocError> for PlaneFault {
    ghost from_gives = { λ _ e. e ≡ OutOfMemory };

    fn from(_e: AllocError) -> PlaneFault {
        PlaneFault::OutOfMemory
    }
}
