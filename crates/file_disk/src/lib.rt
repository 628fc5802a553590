//! A disk in a file of the operating system.
#![tactic(auto)]

pub mod file_disk;
pub mod guarded_disk;
