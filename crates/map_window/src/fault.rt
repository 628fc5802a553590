//! Why a window is refused.
ghost use Rattle.std.specs.Prelude.{◌≡◌};
ghost use Rattle.fault_texts.specs.FaultText.{shown, IsBrief};
ghost use Rattle.map_window.specs.Fault.{code_of, text_of, of_plane};
ghost use Rattle.map_window.specs.declared.fault.WindowFault.TheVariants.{OutOfMemory};

use fault_texts::{CommonFault, FaultText};
use plane_base::PlaneFault;
use std::alloc::AllocError;
use thiserror::Error;

/// Why a window of a map is refused.
#[derive(Clone, Copy, Debug, PartialEq, Eq, Error)]
#[error("{}", self.text())]
pub enum WindowFault {
    /// The core is no box, or the frame is not wider than it on each side.
    CoreOffFrame,
    /// The frame, seen from the origin, does not lie within the coordinates of the plane.
    FrameOffPlane,
    /// A ring, counted from 0, with a step that lies on no side of the core and has an end off the frame.
    StepTooLong(usize),
    /// A ring of the map is no ring, or what is left of the map has too many steps.
    Plane(PlaneFault),
    OutOfMemory,
}

impl WindowFault {
    /// The number under which the fault is printed.
    pub fn code(&self) -> u8
        ensures { result ≡ code_of self.now }
    {
        match self {
            WindowFault::CoreOffFrame => 24,
            WindowFault::FrameOffPlane => 25,
            WindowFault::StepTooLong(_) => 26,
            WindowFault::Plane(fault) => fault.code(),
            WindowFault::OutOfMemory => CommonFault::OutOfMemory.code(),
        }
    }

    /// The text that is printed after the number.
    pub fn text(&self) -> FaultText
        ensures text { shown result ≡ text_of self.now }
        ensures brief { IsBrief result }
    {
        match self {
            WindowFault::CoreOffFrame => FaultText::Plain("core off frame"),
            WindowFault::FrameOffPlane => FaultText::Plain("frame off plane"),
            WindowFault::StepTooLong(ring) => FaultText::Ring(*ring, " step too long"),
            WindowFault::Plane(fault) => fault.text(),
            WindowFault::OutOfMemory => CommonFault::OutOfMemory.text(),
        }
    }
}

impl From<AllocError> for WindowFault {
    ghost from_gives = { λ _ e. e ≡ OutOfMemory };

    fn from(_e: AllocError) -> WindowFault {
        WindowFault::OutOfMemory
    }
}

impl From<PlaneFault> for WindowFault {
    ghost from_gives = { λ fault e. e ≡ of_plane fault };

    fn from(fault: PlaneFault) -> WindowFault {
        match fault {
            PlaneFault::OutOfMemory => WindowFault::OutOfMemory,
            _ => WindowFault::Plane(fault),
        }
    }
}
