//! Layers with their finished tiles: a row for each layer.
#![tactic(auto)]

pub mod filling;
pub mod table;
pub mod tiles;

pub use table::Table;
pub use tiles::TileRow;
