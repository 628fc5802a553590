//! The definitions that the contracts of the overlay cite, laws over them, limits, white space and digits of texts.
#![tactic(auto)]

pub mod batch_law;
pub mod blank;
pub mod digits;
pub mod history_law;
pub mod input_law;
pub mod kept_law;
pub mod laws;
pub mod limits;
