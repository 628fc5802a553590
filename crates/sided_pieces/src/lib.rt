//! The boundary pieces of a strip, each with what the layer is over it, and the area that they enclose.
#![tactic(auto)]

mod area;
mod finding;
mod tile;

pub use area::enclosed_area;
pub use finding::sided_tile;
pub use tile::SidedTile;
