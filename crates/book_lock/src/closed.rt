//! What is left of a book that closes.
use book_history::seen_log::SeenLog;
use std::alloc::Global;
use std::sync::Arc;
use versions::Version;

/// What is left of a book: its newest version, and the log that this ends.
#[derive(Debug, Drop)]
pub struct ClosedBook {
    pub version: Arc<Version, Global>,
    pub seen_log: SeenLog,
}
