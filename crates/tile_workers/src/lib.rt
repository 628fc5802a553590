//! Workers: they build the tiles that a book hands out.
#![tactic(auto)]

pub mod gate;
mod strip_wish;
pub mod worker;
