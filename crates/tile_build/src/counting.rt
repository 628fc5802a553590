//! Building a tile from neighbours alone, and counting what it takes.
ghost use Rattle.std.specs.Prelude.{IfOk};
ghost use Rattle.tile_build.specs.Counted.{IsCounted};

use crate::building::pieces_of;
use crate::counted::Counted;
use crate::tile::Tile;
use arrange::TileInput;
use crossing_sweep::cross;
use std::alloc::{AllocError, Global};

/// The tile of an input as `build` makes it, by one pass over the column that tests neighbours
/// alone, with the tests and the count of the nodes.
pub fn build_counted(alloc: Global, input: &TileInput, cap: usize) -> Result<Counted, AllocError>
    ensures { IfOk result (λ counted. IsCounted input.now cap counted) }
{
    let found = cross(alloc, input, cap, true)?;
    if found.rows.len() > cap {
        return Ok(Counted {
            tile: Tile::Oversize,
            tests: found.tests,
            nodes: found.nodes as u64,
        });
    }
    let pieces = pieces_of(alloc, &found.names, &found.rows)?;
    Ok(Counted {
        tile: Tile::Pieces(pieces),
        tests: found.tests,
        nodes: found.nodes as u64,
    })
}
