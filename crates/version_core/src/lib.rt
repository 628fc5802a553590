//! What a version answers: where a point lies, the edges of a tile, and whether a tile is right.
#![tactic(auto)]

pub mod answers;
mod edges_reply;
mod end_texts;
mod line_text;
mod place_text;
pub mod verifying;

pub use answers::Answers;
pub use verifying::Verdict;
pub use versions::{Finish, VERSION_MAX, Version, VersionFault};
