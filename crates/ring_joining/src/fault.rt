//! Why pieces make no rings.
ghost use Rattle.std.specs.Prelude.{◌≡◌};
ghost use Rattle.ring_joining.specs.declared.fault.JoinFault.TheVariants as faults;

use std::alloc::{AllocError, AllocFailed};

/// Why pieces make no rings.
#[derive(Clone, Copy, Debug)]
pub enum JoinFault {
    OutOfMemory,
    /// Going on from piece to piece does not lead back, or leads where no piece begins.
    NotClosed,
}

impl From<AllocError> for JoinFault {
    ghost from_gives = { λ _ e. e ≡ faults.OutOfMemory };

    fn from(_e: AllocError) -> JoinFault {
        JoinFault::OutOfMemory
    }
}

impl<T: Drop> From<AllocFailed<T>> for JoinFault {
    ghost from_gives = { λ _ e. e ≡ faults.OutOfMemory };

    fn from(_e: AllocFailed<T>) -> JoinFault {
        JoinFault::OutOfMemory
    }
}
