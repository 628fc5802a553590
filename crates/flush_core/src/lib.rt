//! Versions on a disk: a commit of one version after the other.
#![tactic(auto)]

pub mod flusher;
pub mod imaging;
