//! Laws of counting by rays: each function does nothing, and its contract is the law.

ghost use Rattle.tile_laws.specs.Rays.{LeftSide, RayLaw};

/// Off the edges of a base layer, a horizontal ray to the left gives the same parity as one down.
pub fn ray_law()
    ensures { RayLaw }
{}

/// The over side of an upright piece is what the segments say that pass strictly under its middle
/// and reach it from the left.
pub fn left_side_law()
    ensures { LeftSide }
{}
