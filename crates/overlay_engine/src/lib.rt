//! One version over a store: commands, tiles and reports, and device calls between them.
#![tactic(auto)]

mod acting;
mod calling;
mod creating;
mod device;
mod driving;
pub mod engine;
mod finishing;
pub mod laws;
mod recovery;
mod reporting;
pub mod step;
mod submitting;
mod taking;
