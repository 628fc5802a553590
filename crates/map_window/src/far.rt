//! Whole points, boxes and rings of a map, which may lie anywhere.
ghost use Rattle.std.specs.Prelude.{◌≡◌, List};
ghost use Rattle.overlay_terms.specs.Plane.{WholePoint};
ghost use Rattle.map_window.specs.Window.{Box};

use std::marker::Model;

/// A point whose whole coordinates are any numbers of 64 bits.
#[derive(Clone, Copy, Debug, PartialEq, Eq)]
pub struct FarPt {
    x: i64,
    y: i64,
}

impl Model for FarPt {
    ghost Value = { WholePoint };

    ghost view = { λ p. record { x = p.x; y = p.y } };

    ghost inverse = { λ p. record { x = p.x; y = p.y } };
}

impl FarPt {
    pub fn new(x: i64, y: i64) -> FarPt
        ensures { result ≡ record { x = x; y = y } }
    {
        FarPt { x, y }
    }

    pub fn x(self) -> i64
        ensures { result ≡ self.x }
    {
        self.x
    }

    pub fn y(self) -> i64
        ensures { result ≡ self.y }
    {
        self.y
    }
}

/// An upright box, whose borders belong to it.
#[derive(Clone, Copy, Debug, PartialEq, Eq)]
pub struct FarBox {
    low_x: i64,
    high_x: i64,
    low_y: i64,
    high_y: i64,
}

impl Model for FarBox {
    ghost Value = { Box };

    ghost view = { λ b. record { low_x = b.low_x; high_x = b.high_x; low_y = b.low_y; high_y = b.high_y } };

    ghost inverse = { λ b. record { low_x = b.low_x; high_x = b.high_x; low_y = b.low_y; high_y = b.high_y } };
}

impl FarBox {
    /// The box between these numbers: by x, then by y.
    pub fn new(low_x: i64, high_x: i64, low_y: i64, high_y: i64) -> FarBox
        ensures { result ≡ record { low_x = low_x; high_x = high_x; low_y = low_y; high_y = high_y } }
    {
        FarBox {
            low_x,
            high_x,
            low_y,
            high_y,
        }
    }

    /// The box between two corners.
    pub(crate) fn between(low: FarPt, high: FarPt) -> FarBox
        ensures { result ≡ record { low_x = low.x; high_x = high.x; low_y = low.y; high_y = high.y } }
    {
        FarBox {
            low_x: low.x,
            high_x: high.x,
            low_y: low.y,
            high_y: high.y,
        }
    }

    /// The corner at the low ends.
    pub(crate) fn low(&self) -> FarPt
        ensures { result ≡ record { x = self.now.low_x; y = self.now.low_y } }
    {
        FarPt {
            x: self.low_x,
            y: self.low_y,
        }
    }

    /// The corner at the high ends.
    pub(crate) fn high(&self) -> FarPt
        ensures { result ≡ record { x = self.now.high_x; y = self.now.high_y } }
    {
        FarPt {
            x: self.high_x,
            y: self.high_y,
        }
    }

    pub fn low_x(&self) -> i64
        ensures { result ≡ self.now.low_x }
    {
        self.low_x
    }

    pub fn high_x(&self) -> i64
        ensures { result ≡ self.now.high_x }
    {
        self.high_x
    }

    pub fn low_y(&self) -> i64
        ensures { result ≡ self.now.low_y }
    {
        self.low_y
    }

    pub fn high_y(&self) -> i64
        ensures { result ≡ self.now.high_y }
    {
        self.high_y
    }
}

/// A line, as the list of its points.
#[derive(Debug, Drop)]
pub struct FarRing {
    points: Vec<FarPt>,
}

impl Model for FarRing {
    ghost Value = { List WholePoint };

    ghost view = { λ r. r.points.items };
}

impl FarRing {
    pub fn new(points: Vec<FarPt>) -> FarRing
        ensures { result ≡ points.items }
    {
        FarRing { points }
    }

    pub fn points(&self) -> &[FarPt]
        ensures { result.now ≡ self.now }
    {
        &self.points
    }
}
