//! Jobs.
ghost use Rattle.std.specs.Prelude.{◌≡◌, List};
ghost use Rattle.overlay_terms.specs.Plane.{Point};

use std::marker::Model;

/// The upright box within which a job looks; its borders belong to it.
#[derive(Clone, Copy, Debug)]
pub struct Core {
    pub low_x: i64,
    pub high_x: i64,
    pub low_y: i64,
    pub high_y: i64,
}

impl Model for Core {
    ghost use Rattle.block_reading.specs.Terms as terms;

    ghost Value = { terms.Core };

    ghost view = { λ c. record { low_x = c.low_x; high_x = c.high_x; low_y = c.low_y; high_y = c.high_y } };

    ghost inverse = { λ c. record { low_x = c.low_x; high_x = c.high_x; low_y = c.low_y; high_y = c.high_y } };
}

/// A feature that counts for a layer, both by their numbers.
#[derive(Clone, Copy, Debug)]
pub struct Member {
    pub feature: u32,
    pub layer: u32,
}

impl Model for Member {
    ghost use Rattle.block_reading.specs.Terms as terms;

    ghost Value = { terms.Member };

    ghost view = { λ m. record { feature = m.feature; layer = m.layer } };

    ghost inverse = { λ m. record { feature = m.feature; layer = m.layer } };
}

/// The features of a job's layers.
#[derive(Debug, Drop)]
pub struct Members {
    pub(crate) members: Vec<Member>,
}

impl Model for Members {
    ghost use Rattle.std.specs.Prelude.{List};
    ghost use Rattle.block_reading.specs.Terms as terms;

    ghost Value = { List terms.Member };

    ghost view = { λ m. m.members.items };
}

impl Members {
    /// The features, in the order of the bytes.
    pub fn members(&self) -> &[Member]
        ensures { result.now ≡ self.now }
    {
        &self.members
    }
}

/// The point (x / w, y / w) that a job asks about.
#[derive(Clone, Copy, Debug)]
pub struct FarFraction {
    pub x: i64,
    pub y: i64,
    pub w: i64,
}

impl Model for FarFraction {
    ghost Value = { Point };

    ghost view = { λ p. record { x = p.x; y = p.y; w = p.w } };

    ghost inverse = { λ p. record { x = p.x; y = p.y; w = p.w } };
}

/// The points that a job asks about.
#[derive(Debug, Drop)]
pub struct Queries {
    pub(crate) points: Vec<FarFraction>,
}

impl Model for Queries {
    ghost Value = { List Point };

    ghost view = { λ q. q.points.items };
}

impl Queries {
    /// The points, in the order of the bytes.
    pub fn points(&self) -> &[FarFraction]
        ensures { result.now ≡ self.now }
    {
        &self.points
    }
}

/// What is asked; features are named by their numbers in the block.
#[derive(Debug, Drop)]
pub enum Job {
    /// How two features lie to each other.
    Pair(u32, u32),
    /// The expression of the block over layers of features, within a core.
    Cells(Core, Members),
    /// How points lie to a feature.
    Locate(u32, Queries),
}
