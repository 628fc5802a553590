//! Laws of what lines decide: each function does nothing, and its contract is the law.
#![tactic(auto)]

pub mod laws;
