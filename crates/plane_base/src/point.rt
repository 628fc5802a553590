//! Points with whole coordinates, and the segments between them.
ghost use Rattle.std.specs.Prelude.{◌≡◌, ℤ, pos, neg_ℤ, ◌≤ℤ◌, ◌↔◌, IsOk, IfOk, IfErr, IsSome, IfSome, IsNone, IsErrOf};
ghost use Rattle.overlay_terms.specs.Plane.{WholePoint, Segment, InRange, segment_between, whole_cmp};
ghost use Rattle.plane_base.specs.BaseLayer.{IsInRange};

use crate::fault::PlaneFault;
use std::cmp::Ordering;
use std::marker::Model;

/// The largest coordinate; the smallest is its negative.
pub const COORD_MAX: i64 = 1048576;

/// A point with whole coordinates within the range.
#[derive(Clone, Copy, Debug, PartialEq, Eq, PartialOrd, Ord)]
pub struct Pt {
    x: i32,
    y: i32,
}

impl Model for Pt {
    ghost Value = { WholePoint };

    ghost view = { λ p. record { x = p.x; y = p.y } };

    ghost invariant = { λ p. InRange p.x × InRange p.y };

    ghost inverse = { λ p. record { x = p.x; y = p.y } };
}

impl Pt {
    /// The point, if both coordinates are in range.
    pub fn new(x: i64, y: i64) -> Result<Pt, PlaneFault>
        ensures ok { IfOk result (λ p. p ≡ record { x = x; y = y }) }
        ensures in_range { IsOk result ↔ (InRange x × InRange y) }
        ensures err { IfErr result (λ e. e ≡ PlaneFault.CoordRange) }
    {
        if x < -COORD_MAX || x > COORD_MAX || y < -COORD_MAX || y > COORD_MAX {
            return Err(PlaneFault::CoordRange);
        }
        Ok(Pt {
            x: x as i32,
            y: y as i32,
        })
    }

    pub fn x(self) -> i64
        ensures value { result ≡ self.x }
        ensures in_range { InRange result }
    {
        i64::from(self.x)
    }

    pub fn y(self) -> i64
        ensures value { result ≡ self.y }
        ensures in_range { InRange result }
    {
        i64::from(self.y)
    }

    /// Says of a point what is true of each: both coordinates are in range. The call does nothing.
    pub(crate) fn known(self)
        ensures { IsInRange self }
    {
        // Both coordinates are in range by the type: the clause rests on that.
        let _ = self.x;
    }
}

/// The segment between two different points, its left end first.
#[derive(Clone, Copy, Debug, PartialEq, Eq)]
pub struct Seg {
    left: Pt,
    right: Pt,
}

impl Model for Seg {
    ghost use Rattle.std.specs.Prelude.{◌≡◌};
    ghost use Rattle.overlay_terms.specs.Plane.{Segment, whole_cmp};
    ghost use Rattle.std.specs.declared.cmp.Ordering.TheVariants.{Less};

    ghost Value = { Segment };

    ghost view = { λ s. record { left = s.left; right = s.right } };

    ghost invariant = { λ s. whole_cmp s.left s.right ≡ Less };

    ghost inverse = { λ s. record { left = s.left; right = s.right } };
}

impl Seg {
    /// The segment between two points, if they differ.
    pub fn of(a: Pt, b: Pt) -> Option<Seg>
        ensures { result ≡ segment_between (a, b) }
    {
        match a.cmp(&b) {
            Ordering::Less => Some(Seg { left: a, right: b }),
            Ordering::Equal => None,
            Ordering::Greater => Some(Seg { left: b, right: a }),
        }
    }

    /// The end that comes first by x, then by y.
    pub fn left(self) -> Pt
        ensures value { result ≡ self.left }
        ensures first { whole_cmp self.left self.right ≡ Ordering.Less }
    {
        self.left
    }

    pub fn right(self) -> Pt
        ensures value { result ≡ self.right }
        ensures last { whole_cmp self.left self.right ≡ Ordering.Less }
    {
        self.right
    }
}
