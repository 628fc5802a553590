//! Why a core has no answer.
use std::alloc::{AllocError, AllocFailed};

/// Why a core has no answer.
#[derive(Clone, Copy, Debug, PartialEq, Eq)]
pub enum WindowsFault {
    OutOfMemory,
    /// A ring that is not closed, or has fewer than four points.
    BadRing,
    /// A step near a core is longer than the plane of one pass.
    LongStep,
    /// More steps through one place than one pass may have.
    TooManySteps,
    /// Twice the area does not fit 128 bits.
    LargeArea,
    /// An expression over other layers than these.
    OtherLayers,
}

impl From<AllocError> for WindowsFault {
    fn from(_e: AllocError) -> WindowsFault {
        WindowsFault::OutOfMemory
    }
}

impl<T: Drop> From<AllocFailed<T>> for WindowsFault {
    fn from(_e: AllocFailed<T>) -> WindowsFault {
        WindowsFault::OutOfMemory
    }
}
