//! The features of a block.
ghost use Rattle.std.specs.Prelude.{◌≡◌};
ghost use Rattle.overlay_terms.specs.Plane.{WholePoint};

use std::marker::Model;

/// A point with whole coordinates.
#[derive(Clone, Copy, Debug)]
pub struct FarPoint {
    pub x: i64,
    pub y: i64,
}

impl Model for FarPoint {
    ghost Value = { WholePoint };

    ghost view = { λ p. record { x = p.x; y = p.y } };

    ghost inverse = { λ p. record { x = p.x; y = p.y } };
}

/// The features of a block: how many rings each has, how many points each ring, and the points of all.
#[derive(Debug, Drop)]
pub struct Shapes {
    pub(crate) ring_counts: Vec<u32>,
    pub(crate) point_counts: Vec<u32>,
    pub(crate) points: Vec<FarPoint>,
}

impl Model for Shapes {
    ghost use Rattle.block_reading.specs.Terms as terms;

    ghost Value = { terms.Shapes };

    ghost view = { λ s. record { ring_counts = s.ring_counts.items; point_counts = s.point_counts.items; points = s.points.items } };
}

impl Shapes {
    /// How many rings each feature has.
    pub fn ring_counts(&self) -> &[u32]
        ensures { result.now ≡ self.now.ring_counts }
    {
        &self.ring_counts
    }

    /// How many points each ring has, the rings of all features in a row.
    pub fn point_counts(&self) -> &[u32]
        ensures { result.now ≡ self.now.point_counts }
    {
        &self.point_counts
    }

    /// The points of all rings in a row.
    pub fn points(&self) -> &[FarPoint]
        ensures { result.now ≡ self.now.points }
    {
        &self.points
    }
}
