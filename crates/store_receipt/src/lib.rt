//! Which store it was that stored a number: a name without bytes, and receipts that its store alone gives.
#![tactic(auto)]

pub mod receipt;
pub mod store_name;
