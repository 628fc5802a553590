//! What the reader of Well-Known Text refuses.
ghost use Rattle.std.specs.Prelude.{◌≡◌};
ghost use Rattle.fault_texts.specs.FaultText.{shown, IsBrief};
ghost use Rattle.wkt_form.specs.Fault.{code_of, text_of, of_rings};
ghost use Rattle.wkt_form.specs.declared.fault.WktFault.TheVariants.{OutOfMemory};

use fault_texts::FaultText;
use plane_base::PlaneFault;
use std::alloc::AllocError;
use thiserror::Error;

/// Why a text is refused.
#[derive(Clone, Copy, Debug, PartialEq, Eq, Error)]
#[error("{}", self.text())]
pub enum WktFault {
    /// The offset of the token that cannot come there, or the length of the text.
    Syntax(usize),
    /// The offset of a number with a digit after its point that is not 0.
    NotWhole(usize),
    /// The offset of a number that is no coordinate.
    CoordRange(usize),
    /// A ring, counted from 0, whose last point is not its first.
    RingOpen(usize),
    /// A ring, counted from 0, of fewer than four points.
    RingShort(usize),
    TooManySegments,
    OutOfMemory,
}

impl WktFault {
    /// The number under which the fault is printed: 1 to 6 or 40.
    pub fn code(&self) -> u8
        ensures { result ≡ code_of self.now }
    {
        match self {
            WktFault::Syntax(_) => 1,
            WktFault::NotWhole(_) => 2,
            WktFault::CoordRange(_) => PlaneFault::CoordRange.code(),
            WktFault::RingOpen(ring) => PlaneFault::RingOpen(*ring).code(),
            WktFault::RingShort(ring) => PlaneFault::RingShort(*ring).code(),
            WktFault::TooManySegments => PlaneFault::TooManySegments.code(),
            WktFault::OutOfMemory => PlaneFault::OutOfMemory.code(),
        }
    }

    /// The text that is printed after the number.
    pub fn text(&self) -> FaultText
        ensures text { shown result ≡ text_of self.now }
        ensures brief { IsBrief result }
    {
        match self {
            WktFault::Syntax(at) => FaultText::At("wkt syntax at ", *at),
            WktFault::NotWhole(at) => FaultText::At("not whole at ", *at),
            WktFault::CoordRange(at) => FaultText::At("coordinate out of range at ", *at),
            WktFault::RingOpen(ring) => PlaneFault::RingOpen(*ring).text(),
            WktFault::RingShort(ring) => PlaneFault::RingShort(*ring).text(),
            WktFault::TooManySegments => PlaneFault::TooManySegments.text(),
            WktFault::OutOfMemory => PlaneFault::OutOfMemory.text(),
        }
    }
}

impl From<AllocError> for WktFault {
    ghost from_gives = { λ _ e. e ≡ OutOfMemory };

    fn from(_e: AllocError) -> WktFault {
        WktFault::OutOfMemory
    }
}

impl From<PlaneFault> for WktFault {
    ghost from_gives = { λ fault e. e ≡ of_rings fault };

    fn from(fault: PlaneFault) -> WktFault {
        match fault {
            PlaneFault::RingOpen(ring) => WktFault::RingOpen(ring),
            PlaneFault::RingShort(ring) => WktFault::RingShort(ring),
            PlaneFault::TooManySegments => WktFault::TooManySegments,
            // The points of rings are in range, so this is none of their faults.
            PlaneFault::CoordRange => WktFault::CoordRange(0),
            PlaneFault::OutOfMemory => WktFault::OutOfMemory,
        }
    }
}
