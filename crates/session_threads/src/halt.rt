//! Whether a run halts before all its scripts have begun.
use std::sync::atomic::{AtomicBool, Ordering};

/// Whether a run halts, as a thread was refused: from then on no script is begun.
#[derive(Drop)]
pub struct Halt {
    halted: AtomicBool,
}

impl Halt {
    /// A run that goes on.
    pub fn new() -> Halt {
        Halt {
            halted: AtomicBool::new(false),
        }
    }

    /// Halts it.
    pub fn set(&self) {
        self.halted.store(true, Ordering::SeqCst);
    }

    /// Whether it has halted.
    pub fn is_set(&self) -> bool {
        self.halted.load(Ordering::SeqCst)
    }
}
