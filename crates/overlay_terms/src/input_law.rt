//! Laws over the inputs of tiles: each function does nothing, and its contract is the law.

ghost use Rattle.overlay_terms.specs.InputLaws.{ClosedIsInput, InputOfIsInput, LayersAreClosed, RingsAreClosed};
ghost use Rattle.overlay_terms.specs.TileLaws.{InputLaw};

/// Rings whose last point is their first leave each whole point an end of an even number of segments.
pub fn rings_are_closed()
    ensures { RingsAreClosed }
{}

/// The tile of some segments is the tile of those of them that have a point in its column.
pub fn input_law()
    ensures { InputLaw }
{}

/// The segments of base layers are proper, and each whole point is an end of an even number of each layer's segments.
pub fn layers_are_closed()
    ensures { LayersAreClosed }
{}

/// Of closed segments, those with a point in a column are the input of a tile.
pub fn closed_is_input()
    ensures { ClosedIsInput }
{}

/// Where the rings of base layers are closed and in range, and there are no more layers than there may be, the input of
/// the tile of a layer and column is one.
pub fn input_of_is_input()
    ensures { InputOfIsInput }
{}
