//! What lies under and over each piece of a column.
#![tactic(auto)]

pub mod counting;
pub mod labelled;
pub mod labelling;
mod right_ends;
pub mod status;

pub use labelling::label;
