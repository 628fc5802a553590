//! Records read, and the bodies of roots: the values that their bytes spell, or why they are not read.
#![tactic(auto)]

pub mod base_record;
mod bytes;
pub mod catalog_record;
pub mod definition_record;
pub mod fault;
mod piece_order;
mod pieces;
mod points;
pub mod root_body;
mod segments;
pub mod tile_record;
