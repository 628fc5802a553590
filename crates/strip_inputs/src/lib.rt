//! What the tiles of neighbouring columns are built from.
#![tactic(auto)]

mod gathering;
pub mod input;
mod meeting;

pub use input::StripInput;
