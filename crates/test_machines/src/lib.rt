//! Engines for tests, of which contracts see nothing, so that a function that owns one is proved soon.
#![tactic(auto)]

pub mod machine;
pub mod refused;
