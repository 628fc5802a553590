//! A disk as a store sees it: what a read gives, and what a crash may leave.
#![tactic(auto)]

pub mod disk;
pub mod fault;
pub mod image;
pub mod mem_disk;
mod overwriting;
