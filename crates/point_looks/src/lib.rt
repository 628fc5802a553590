//! A point against many segments, in one pass or in blocks: what lies below it, and what holds it.
#![tactic(auto)]

pub mod blocks;
mod flooring;
pub mod seeing;
pub mod spot;

pub use blocks::look_at_blocks;
pub use seeing::{Seen, look_at_all, see};
pub use spot::Spot;
