//! The tiles of a derived layer by comparing all pairs of segments: the plain body beside the pass.
#![tactic(auto)]

pub mod all_pairs;

pub use all_pairs::build_by_pairs;
