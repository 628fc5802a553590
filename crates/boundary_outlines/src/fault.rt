//! Why pieces have no outline.
use ring_joining::JoinFault;
use std::alloc::{AllocError, AllocFailed};

/// Why pieces have no outline.
#[derive(Clone, Copy, Debug, PartialEq, Eq)]
pub enum OutlineFault {
    OutOfMemory,
    /// The pieces are no boundary: some place has more beginnings than ends, or fewer.
    NotClosed,
}

impl From<AllocError> for OutlineFault {
    fn from(_e: AllocError) -> OutlineFault {
        OutlineFault::OutOfMemory
    }
}

impl<T: Drop> From<AllocFailed<T>> for OutlineFault {
    fn from(_e: AllocFailed<T>) -> OutlineFault {
        OutlineFault::OutOfMemory
    }
}

impl From<JoinFault> for OutlineFault {
    fn from(e: JoinFault) -> OutlineFault {
        match e {
            JoinFault::OutOfMemory => OutlineFault::OutOfMemory,
            JoinFault::NotClosed => OutlineFault::NotClosed,
        }
    }
}
