//! Which blocks of a file are free, and the lowest run of them that fits.
#![tactic(auto)]

pub mod extent;
pub mod extents;
pub mod fault;
mod first_fit;
pub mod laws;

pub use first_fit::{BLOCK, FIRST_BLOCK, blocks_of};
