//! The ranges of x and y of some segments.
ghost use Rattle.std.specs.List.{AllByRecursion};
ghost use Rattle.overlay_terms.specs.Plane.{Segment};
ghost use Rattle.plane_base.specs.Bounds.{Holds};

use crate::point::{COORD_MAX, Seg};

/// Ranges of x and y, whose ends belong to them.
#[derive(Clone, Copy, Debug)]
pub struct Bounds {
    pub low_x: i64,
    pub high_x: i64,
    pub low_y: i64,
    pub high_y: i64,
}

impl Bounds {
    /// The ranges of no segment.
    const NOTHING: Bounds = Bounds {
        low_x: COORD_MAX,
        high_x: -COORD_MAX,
        low_y: COORD_MAX,
        high_y: -COORD_MAX,
    };

    /// The least ranges that hold some segments.
    pub(crate) fn around(segs: &[Seg]) -> Bounds
        ensures { AllByRecursion (Holds result) segs.now }
    {
        let mut bounds = Bounds::NOTHING;
        for seg in segs {
            bounds = bounds.with(seg);
        }
        bounds
    }

    /// The ranges that hold one segment more.
    fn with(self, seg: &Seg) -> Bounds
        ensures added { Holds result seg.now }
        ensures kept { (s : Segment) → Holds self s → Holds result s }
    {
        let (left, right) = (seg.left(), seg.right());
        Bounds {
            low_x: self.low_x.min(left.x()),
            high_x: self.high_x.max(right.x()),
            low_y: self.low_y.min(left.y()).min(right.y()),
            high_y: self.high_y.max(left.y()).max(right.y()),
        }
    }
}
