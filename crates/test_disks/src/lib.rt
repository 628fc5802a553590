//! Disks of which calls fail: one that stops for good, and one that fails once.
#![tactic(auto)]

pub mod fault_disk;
pub mod plan;
pub mod planned_disk;
pub mod stop_disk;
