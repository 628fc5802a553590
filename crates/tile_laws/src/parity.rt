//! Laws over the tiles of an input and of a layer: each function does nothing, and its contract is the law.

ghost use Rattle.overlay_terms.specs.LayerParity.{InputParityLaw, LayerParityLaw};
ghost use Rattle.overlay_terms.specs.TileLaws.{ParityLaw};

/// Off the segments, an odd number of a tile's pieces is below a point of its column exactly
/// where the steps are true there.
pub fn parity_law()
    ensures { ParityLaw }
{}

/// Off the segments in reach, an odd number of the pieces of a layer's tile is below a point of its column exactly
/// where the point is in the layer.
pub fn layer_parity_law()
    ensures { LayerParityLaw }
{}

/// The same for a tile of the layer's input.
pub fn input_parity_law()
    ensures { InputParityLaw }
{}
