//! What the root of a store's file names: records, as the disk has them, and the blocks that they take.
#![tactic(auto)]

pub mod contents;
mod kept_layers;
pub mod load_fault;
mod longest;
pub mod record_bytes;
pub mod records;
pub mod root_runs;
mod tiles;
