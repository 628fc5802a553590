//! A store as its book's keeper holds it. None of these calls waits, so each returns, and what it leaves is what its contract
//! says. What they give has store and disk shut, or held by the keeper; programs have a disk open until they shut it.
#![tactic(auto)]

pub mod begun;
pub mod held_store;
pub mod left;
pub mod opened;
mod version_mark;
