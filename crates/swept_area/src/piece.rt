//! Pieces of a boundary with their inside, and where their window lies.
ghost use Rattle.std.specs.Prelude.{◌^◌};
ghost use Rattle.overlay_terms.specs.Within.{IsWithin};

use exact_point::HPoint;
use plane_base::Seg;

/// A piece from one place to another on a segment, and whether the inside is over it, or left of a vertical one.
#[derive(Clone, Copy, Debug)]
pub struct SidedPiece {
    pub support: Seg,
    pub from: HPoint,
    pub to: HPoint,
    pub over: bool,
}

/// How far a window lies right of the origin from which areas are seen, and how far above it.
#[derive(Clone, Copy, Debug)]
pub struct Shift {
    pub x: i64,
    pub y: i64,
    pub ghost x_small: { IsWithin (2 ^ 41) x },
    pub ghost y_small: { IsWithin (2 ^ 41) y },
}
