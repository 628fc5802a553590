//! Steps of definitions over layers, where these are in order.
#![tactic(auto)]

mod making;
mod ordering;

pub use making::steps_over;
