//! A store in a file of two root slots: a crash at any moment leaves the old content or the new one.
#![tactic(auto)]

mod beginning;
pub mod commit;
pub mod creating;
pub mod finding;
mod healing;
pub mod laws;
pub mod open_fault;
pub mod opening;
pub mod phase;
pub mod shut;
mod slots;
