//! What building a tile from neighbours alone has found.
use crate::tile::Tile;
use plane_base::Seg;

/// A tile, with the pairs of neighbours that were tested for it, and how many nodes were passed.
#[derive(Debug, Drop)]
pub struct Counted {
    pub tile: Tile,
    pub tests: Vec<(Seg, Seg)>,
    pub nodes: u64,
}
