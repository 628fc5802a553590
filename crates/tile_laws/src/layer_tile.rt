//! The tile of a layer and column, by the layer's input: each function does nothing, and its contract is the law.

ghost use Rattle.tile_laws.specs.LayerTile.{InputDecidesTile, TileOfInput};

/// The tile of a layer and column is the tile of the layer's input in that column.
pub fn tile_of_input()
    ensures { TileOfInput }
{}

/// A tile depends on its input alone: layers with the same input in a column have the same tile there.
pub fn input_decides_tile()
    ensures { InputDecidesTile }
{}
