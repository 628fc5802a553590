//! Versions of the layers, each with its finished tiles.
#![tactic(auto)]

pub mod awaiting;
pub mod fault;
pub mod finishing;
pub mod pending_tiles;
pub mod reporting;
pub mod restoring;
pub mod submitting;
pub mod submitting_all;
pub mod version;

pub use fault::VersionFault;
pub use finishing::Finish;
pub use version::{VERSION_MAX, Version};
