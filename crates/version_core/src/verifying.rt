//! What a finished tile is found to be.
ghost use Rattle.std.specs.Prelude.{◌≡◌, true, IfOk};
ghost use Rattle.overlay_terms.specs.Commands.{stands_as_derived};
ghost use Rattle.overlay_terms.specs.Histories.{IsTileAt, pieces_max};
ghost use Rattle.overlay_terms.specs.Tiles.{input_of};
ghost use Rattle.tile_build.specs.Tile.{tile_of};

use layer_expr::name::Name;
use plane_base::Column;
use std::alloc::{AllocError, Global};
use tile_build::{PIECES_MAX, Tile, build};
use versions::Version;

/// Whether a tile is the one that its present input gives.
#[derive(Clone, Copy, Debug, PartialEq, Eq)]
pub enum Verdict {
    Same,
    Different,
}

/// The tile that the present input of a derived layer in a column gives.
pub(crate) fn built_anew(
    version: &Version,
    alloc: Global,
    name: &Name,
    column: Column,
) -> Result<Tile, AllocError>
    requires { stands_as_derived version.now.layers name.now ≡ true }
    ensures { IfOk result (λ tile. IsTileAt pieces_max (input_of version.now.layers name.now column) (tile_of tile)) }
{
    let input = version.layers().input_in_reach(alloc, name, column)?;
    build(alloc, &input, PIECES_MAX)
}
