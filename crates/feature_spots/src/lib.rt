//! Where points lie against features: outside, inside, or on a step.
#![tactic(auto)]

mod arithmetic;
mod laws;
mod rings;
mod seeing;
mod spot;

pub use laws::spots_are_of_segments;
pub use rings::{locate, spot_number};
pub use spot::Spot;
