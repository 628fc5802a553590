//! Points with the whole numbers next to their coordinates.
ghost use Rattle.point_looks.specs.Floor.{IsFloor, IsCeil};

use crate::flooring::{ceil, floor};
use exact_point::HPoint;

/// A point, and the whole numbers next to its x and y: most segments need comparisons with them alone.
#[derive(Clone, Copy, Debug)]
pub struct Spot {
    pub(crate) at: HPoint,
    pub(crate) floor_x: i64,
    pub(crate) ceil_x: i64,
    pub(crate) floor_y: i64,
    pub(crate) ceil_y: i64,
    pub(crate) ghost floor_of_x: { IsFloor floor_x at.x at.w },
    pub(crate) ghost ceil_of_x: { IsCeil ceil_x at.x at.w },
    pub(crate) ghost floor_of_y: { IsFloor floor_y at.y at.w },
    pub(crate) ghost ceil_of_y: { IsCeil ceil_y at.y at.w },
}

impl Spot {
    ghost use Rattle.std.specs.Prelude.{◌≡◌};
    ghost use Rattle.exact_point.specs.Place.{place};
    ghost use Rattle.point_looks.specs.Spot.{point_of};

    /// The same point.
    pub fn of(at: HPoint) -> Spot
        ensures { point_of result ≡ place at }
    {
        Spot {
            at,
            floor_x: floor(at.x, at.w),
            ceil_x: ceil(at.x, at.w),
            floor_y: floor(at.y, at.w),
            ceil_y: ceil(at.y, at.w),
        }
    }

    /// The greatest whole number that is at most the point's x.
    pub fn floor_x(&self) -> i64
        ensures { IsFloor result (point_of self.now).x (point_of self.now).w }
    {
        self.floor_x
    }

    /// The least whole number that is at least the point's x.
    pub fn ceil_x(&self) -> i64
        ensures { IsCeil result (point_of self.now).x (point_of self.now).w }
    {
        self.ceil_x
    }

    /// The greatest whole number that is at most the point's y.
    pub fn floor_y(&self) -> i64
        ensures { IsFloor result (point_of self.now).y (point_of self.now).w }
    {
        self.floor_y
    }

    /// The least whole number that is at least the point's y.
    pub fn ceil_y(&self) -> i64
        ensures { IsCeil result (point_of self.now).y (point_of self.now).w }
    {
        self.ceil_y
    }
}
