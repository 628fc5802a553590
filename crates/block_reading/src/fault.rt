//! Why some bytes are no block.
ghost use Rattle.std.specs.Prelude.{◌≡◌};
ghost use Rattle.block_reading.specs.Fault.{code_of, job_of};
ghost use Rattle.block_reading.specs.declared.fault.ReadFault.TheVariants as faults;

use std::alloc::{AllocError, AllocFailed};

/// Why some bytes are no block.
#[derive(Clone, Copy, Debug)]
pub enum BlockFault {
    /// They end before the block does.
    Cut,
    /// They do not begin as a block.
    NoBlock,
    OtherVersion,
    /// Bytes follow the block.
    TooLong,
    /// The counts of its head do not make its length.
    OtherLength,
    UnknownKind,
    UnknownFlag,
    /// The features have more or fewer rings than the head says.
    OtherRings,
    /// The rings have more or fewer points than the head says.
    OtherPoints,
    /// A coordinate of the point with this number lies beyond 2^41.
    OutOfRange(usize),
    /// The end mark is not there.
    NoEnd,
    /// The bytes of jobs end within the job with this number.
    JobCut(usize),
    /// Bytes follow the last job.
    JobsTooLong,
    /// The core of the job with this number is no box within the coordinates.
    BadCore(usize),
    /// A point of the job with this number has no denominator above 0, or lies beyond the coordinates.
    BadFraction(usize),
    /// The job with this number names a feature or a layer that is not there.
    Absent(usize),
}

impl BlockFault {
    /// The number of the fault.
    pub fn code(&self) -> u16
        ensures { result ≡ code_of self.now }
    {
        match self {
            BlockFault::Cut => 60,
            BlockFault::NoBlock => 61,
            BlockFault::OtherVersion => 62,
            BlockFault::TooLong => 63,
            BlockFault::OtherLength => 64,
            BlockFault::UnknownKind => 65,
            BlockFault::UnknownFlag => 66,
            BlockFault::OtherRings => 67,
            BlockFault::OtherPoints => 68,
            BlockFault::OutOfRange(_) => 69,
            BlockFault::NoEnd => 70,
            BlockFault::JobCut(_) => 71,
            BlockFault::JobsTooLong => 72,
            BlockFault::BadCore(_) => 73,
            BlockFault::BadFraction(_) => 74,
            BlockFault::Absent(_) => 75,
        }
    }

    /// The number of the job that is at fault, where one is.
    pub fn job(&self) -> Option<usize>
        ensures { result ≡ job_of self.now }
    {
        match self {
            BlockFault::JobCut(job)
            | BlockFault::BadCore(job)
            | BlockFault::BadFraction(job)
            | BlockFault::Absent(job) => Some(*job),
            _ => None,
        }
    }
}

/// Why no block is read.
#[derive(Clone, Copy, Debug)]
pub enum ReadFault {
    OutOfMemory,
    Refused(BlockFault),
}

impl From<AllocError> for ReadFault {
    ghost from_gives = { λ _ e. e ≡ faults.OutOfMemory };

    fn from(_e: AllocError) -> ReadFault {
        ReadFault::OutOfMemory
    }
}

impl<T: Drop> From<AllocFailed<T>> for ReadFault {
    ghost from_gives = { λ _ e. e ≡ faults.OutOfMemory };

    fn from(_e: AllocFailed<T>) -> ReadFault {
        ReadFault::OutOfMemory
    }
}
