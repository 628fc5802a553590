//! What a disk is handed back with, of which no engine is made.

use commit_plan::fault::StoreFault;
use std::fmt;

/// Why no engine is made or recovered, and the disk as the calls have left it.
#[derive(Drop)]
pub struct Refused<D> {
    pub fault: StoreFault,
    pub disk: D,
}

// A test that fails prints it: the fault alone, as a disk may have megabytes.
impl<D> fmt::Debug for Refused<D> {
    fn fmt<W: fmt::Write>(&self, f: &mut fmt::Formatter<W>) -> fmt::Result {
        f.debug_struct("Refused")
            .field("fault", &self.fault)
            .finish_non_exhaustive()
    }
}
