//! Why a job has no answer.
ghost use Rattle.std.specs.Prelude.{◌≡◌};
ghost use Rattle.feature_jobs.specs.Fault.{code_of};
ghost use Rattle.feature_jobs.specs.declared.fault.JobFault.TheVariants as faults;

use boundary_outlines::OutlineFault;
use feature_windows::WindowsFault;
use layer_expr::ExprFault;
use std::alloc::{AllocError, AllocFailed};

/// Why a job has no answer, or a block.
#[derive(Clone, Copy, Debug, PartialEq, Eq)]
pub enum JobFault {
    OutOfMemory,
    /// The expression cannot be read, or names what is no layer of the block.
    BadExpression,
    /// An expression over more layers than a pass may have.
    TooManyLayers,
    /// A step near a core is longer than the plane of one pass.
    LongStep,
    /// More steps through one place than one pass may have.
    TooManySteps,
    /// Twice the area does not fit 128 bits.
    LargeArea,
    /// A ring that is not closed, or has fewer than four points.
    BadRing,
    /// The pieces of a boundary do not close.
    OpenBoundary,
}

impl JobFault {
    /// The number of the fault.
    pub fn code(&self) -> u32
        ensures { result ≡ code_of self.now }
    {
        match self {
            JobFault::OutOfMemory => 40,
            JobFault::BadExpression => 76,
            JobFault::TooManyLayers => 77,
            JobFault::LongStep => 78,
            JobFault::TooManySteps => 79,
            JobFault::LargeArea => 80,
            JobFault::BadRing => 82,
            JobFault::OpenBoundary => 84,
        }
    }
}

impl From<AllocError> for JobFault {
    ghost from_gives = { λ _ e. e ≡ faults.OutOfMemory };

    fn from(_e: AllocError) -> JobFault {
        JobFault::OutOfMemory
    }
}

impl<T: Drop> From<AllocFailed<T>> for JobFault {
    ghost from_gives = { λ _ e. e ≡ faults.OutOfMemory };

    fn from(_e: AllocFailed<T>) -> JobFault {
        JobFault::OutOfMemory
    }
}

impl From<ExprFault> for JobFault {
    fn from(e: ExprFault) -> JobFault {
        match e {
            ExprFault::OutOfMemory => JobFault::OutOfMemory,
            _ => JobFault::BadExpression,
        }
    }
}

impl From<OutlineFault> for JobFault {
    fn from(e: OutlineFault) -> JobFault {
        match e {
            OutlineFault::OutOfMemory => JobFault::OutOfMemory,
            OutlineFault::NotClosed => JobFault::OpenBoundary,
        }
    }
}

impl From<WindowsFault> for JobFault {
    fn from(e: WindowsFault) -> JobFault {
        match e {
            WindowsFault::OutOfMemory => JobFault::OutOfMemory,
            WindowsFault::BadRing => JobFault::BadRing,
            WindowsFault::LongStep => JobFault::LongStep,
            WindowsFault::TooManySteps => JobFault::TooManySteps,
            WindowsFault::LargeArea => JobFault::LargeArea,
            WindowsFault::OtherLayers => JobFault::BadExpression,
        }
    }
}
