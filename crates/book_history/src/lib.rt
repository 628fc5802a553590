//! One history that threads share.
#![tactic(auto)]

pub mod entry;
pub mod fault;
pub mod published;
pub mod publisher;
pub mod reader_place;
pub mod resting;
pub mod seen_log;
