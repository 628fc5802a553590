//! The log under the lock: what each call that changes it does, and what its sessions have seen.
#![tactic(auto)]

pub mod change;
pub mod closed;
pub mod locked_log;
pub mod refused;
pub mod reporter;
pub mod room;
pub mod session;
mod sessionless_entries;
mod shared_version;
mod submitting;
