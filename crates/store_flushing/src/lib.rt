//! The loop of a flusher: it commits the versions of a book to a store, and reports what is stored. And the end of a
//! book and its store, once the threads that share them have returned.
#![tactic(auto)]

pub mod closed;
mod flusher_loop;
pub mod keeper;
pub mod laws;
mod reports;
