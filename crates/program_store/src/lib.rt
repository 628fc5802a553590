//! What both programs do with their store, from opening it to the exit status, and the faults
//! that they report of their own.
#![tactic(auto)]

pub mod ending;
pub mod fault;
pub mod refusal;
pub mod replies;
pub mod source;
pub mod store;
pub mod streams;
