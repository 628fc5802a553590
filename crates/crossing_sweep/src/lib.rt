//! Crossings found from neighbours alone: what the sweep over the units of a strip of columns rests on.
#![tactic(auto)]

mod ahead;
mod bundle;
mod by_reference;
mod known_places;
pub mod laws;
mod member;
mod members_after;
mod node_name;
mod pass;
mod pass_input;
mod progress;
mod rank;
mod ranked_place;
mod row;
mod search;
mod sorting;
mod start;
mod starts;
mod strip;
mod values;
mod wish;

pub use node_name::{NodeName, name_of};
pub use pass::{Crossed, cross, cross_strip_while, cross_while};
pub use pass_input::PassInput;
pub use row::Row;
pub use strip::Strip;
pub use wish::{Always, Wish};
