//! What a disk is handed back with.

use commit_plan::fault::StoreFault;

/// Why no store is made or opened, and the disk as the calls have left it.
#[derive(Debug, Drop)]
pub struct OpenFault<D> {
    pub fault: StoreFault,
    pub disk: D,
}
