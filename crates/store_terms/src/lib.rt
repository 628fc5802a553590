//! What records and files of the store hold, and laws over that.
#![tactic(auto)]

pub mod catalog;
pub mod damage;
pub mod laws;
pub mod layout;
pub mod root;
