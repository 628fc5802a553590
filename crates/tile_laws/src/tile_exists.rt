//! That each input has its tile: each function does nothing, and its contract is the law.

ghost use Rattle.tile_laws.specs.TileExists.{EachHasItsTile, MoreIsOversize, SomeAreNoMore};

/// Each input has a tile: a list of the pieces of its boundary in the column, in order and each once.
pub fn each_input_has_its_tile()
    ensures { EachHasItsTile }
{}

/// Pieces of the boundary, in order and each once, are no more than the pieces of the tile.
pub fn some_are_no_more()
    ensures { SomeAreNoMore }
{}

/// Where more than a cap of them are found, the tile is oversize at that cap, whatever is still to be found.
pub fn more_is_oversize()
    ensures { MoreIsOversize }
{}
