//! Published versions: the book that threads share, its sessions, its reporter and its jobs.
#![tactic(auto)]

mod book_state;
pub mod closer;
mod held_tiles;
mod locked_book;
mod pending;
pub mod sending;
pub mod shared;
mod strips;
mod turns;

/// What is left of a book that closes.
pub mod closing {
    pub use book_lock::closed::ClosedBook;
}

/// A tile that is handed out.
pub mod job {
    pub use crate::locked_book::job::Job;
}

/// A strip of tiles that are handed out as one.
pub mod strip_job {
    pub use crate::locked_book::strip_job::StripJob;
}

/// Why a call on the book is refused.
pub mod fault {
    pub use book_history::fault::{BookFault, ReportedFault};
}

/// What a thread does that was refused memory, before it asks again.
pub mod resting {
    pub use book_history::resting::rest;
}

/// The one token that may report durable numbers.
pub mod reporter {
    pub use book_lock::reporter::Reporter;
}

/// A session: what it has seen and made.
pub mod session {
    pub use book_lock::session::Session;
}

/// A beginning of the history that was seen.
pub mod seen_log {
    pub use book_history::seen_log::{
        Add, BookName, LogRule, LogWord, NoGain, OpensLog, SeenLog, open,
    };
}
