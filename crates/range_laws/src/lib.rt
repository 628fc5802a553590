//! Laws of what is in range: each function does nothing, and its contract is the law.
#![tactic(auto)]

pub mod laws;
