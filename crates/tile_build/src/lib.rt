//! The tiles of a derived layer: its boundary, column by column.
#![tactic(auto)]

pub mod building;
pub mod built;
pub mod counted;
pub mod counting;
pub mod ends;
pub mod leaving;
pub mod piece;
pub mod shared_built;
pub mod strip_tiles;
pub mod tile;

pub use building::build;
pub use built::{Built, PIECES_MAX};
pub use counted::Counted;
pub use counting::build_counted;
pub use crossing_sweep::{Strip, Wish};
pub use leaving::{build_strip_while, build_while};
pub use piece::Piece;
pub use shared_built::SharedBuilt;
pub use strip_inputs::StripInput;
pub use strip_tiles::build_strip;
pub use tile::Tile;
