//! Who answers jobs by rows.
ghost use Rattle.std.specs.Prelude.{ℕ, List, IfOk};

use std::alloc::{AllocError, Global};

/// Who answers jobs.
pub trait Answering<J> {
    /// Whether bytes are a row that answers a job.
    ghost answers: { Self → J → List ℕ → Type 0 };

    /// The whole row of a job, or nothing where there is no memory for it.
    fn row(&self, alloc: Global, job: &J) -> Result<Vec<u8>, AllocError>
        ensures answers { IfOk result (λ row. answers self.now job.now row.items) };
}
