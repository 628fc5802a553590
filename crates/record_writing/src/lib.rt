//! The bytes of records, catalogs and bodies of roots written.
#![tactic(auto)]

pub mod base_writing;
mod bytes;
pub mod catalog_writing;
pub mod definition_writing;
pub mod laws;
mod piece_writing;
pub mod root_body;
pub mod tile_writing;
