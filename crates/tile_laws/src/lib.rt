//! Laws of tiles over the definitions: each function does nothing, and its contract is the law.
#![tactic(auto)]

pub mod held_tile;
pub mod layer_tile;
pub mod parity;
pub mod rays;
pub mod tile_exists;
