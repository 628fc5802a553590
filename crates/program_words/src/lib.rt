//! The words after the names of the two programs, as plans.
#![tactic(auto)]

pub mod fault;
pub mod keeping;
pub mod laws;
pub mod live_plan;
pub mod live_reading;
mod matching;
pub mod number;
pub mod own;
pub mod plan;
pub mod reading;
