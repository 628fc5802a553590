//! A thread for each session of a book: which script it runs, and what all of them made.
#![tactic(auto)]

pub mod counting;
pub mod fuse;
pub mod halt;
pub mod port;
pub mod running;
pub mod seating;
