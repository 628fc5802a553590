//! A point against one segment, and against many.
ghost use Rattle.std.specs.Prelude.{◌≡◌, ◌||◌, ◌≤ℤ◌, not, if◌then◌else◌};
ghost use Rattle.overlay_terms.specs.Plane.{is_below, is_inside, is_on};
ghost use Rattle.overlay_terms.specs.Laws.{is_on_any};
ghost use Rattle.point_looks.specs.Spot.{point_of};

use crate::spot::Spot;
use exact_point::on;
use exact_point::side::side;
use plane_base::Seg;
use std::cmp::Ordering;

/// What is seen from a point: whether it is inside, an odd number of segments below it, and whether one holds it.
#[derive(Clone, Copy, Debug, PartialEq, Eq)]
pub struct Seen {
    pub inside: bool,
    pub edge: bool,
}

impl Seen {
    /// What is seen of no segment.
    pub const NOTHING: Seen = Seen {
        inside: false,
        edge: false,
    };

    /// What is seen of two lists together.
    pub fn and(self, other: Seen) -> Seen
        ensures inside { result.inside ≡ (if other.inside then not self.inside else self.inside) }
        ensures edge { result.edge ≡ (self.edge || other.edge) }
    {
        Seen {
            inside: if other.inside {
                !self.inside
            } else {
                self.inside
            },
            edge: self.edge || other.edge,
        }
    }
}

/// Whether an odd number of segments is below the point, and whether one holds it, in one pass.
pub fn look_at_all(segs: &[Seg], spot: &Spot) -> Seen
    ensures inside { result.inside ≡ is_inside segs.now (point_of spot.now) }
    ensures edge { result.edge ≡ is_on_any segs.now (point_of spot.now) }
{
    let mut seen = Seen::NOTHING;
    for seg in segs {
        seen = seen.and(see(seg, spot));
    }
    seen
}

/// Whether the segment is below the point, and whether it holds the point. Only where the point lies within the
/// segment's ranges of x and y is anything multiplied.
pub fn see(seg: &Seg, spot: &Spot) -> Seen
    ensures below { result.inside ≡ is_below seg.now (point_of spot.now) }
    ensures on { result.edge ≡ is_on seg.now (point_of spot.now) }
{
    if spot.floor_x < seg.left().x() {
        return Seen::NOTHING;
    }
    if seg.right().x() < spot.ceil_x {
        return Seen::NOTHING;
    }
    see_across(seg, spot)
}

/// The same where the point lies within the range of x.
fn see_across(seg: &Seg, spot: &Spot) -> Seen
    requires from_left { seg.now.left.x ≤ℤ spot.now.floor_x }
    requires to_right { spot.now.ceil_x ≤ℤ seg.now.right.x }
    ensures below { result.inside ≡ is_below seg.now (point_of spot.now) }
    ensures on { result.edge ≡ is_on seg.now (point_of spot.now) }
{
    let (left, right) = (seg.left().y(), seg.right().y());
    if spot.floor_y < left.min(right) {
        return Seen::NOTHING;
    }
    if left.max(right) < spot.ceil_y {
        return Seen {
            inside: spot.floor_x < seg.right().x(),
            edge: false,
        };
    }
    see_near(seg, spot)
}

/// The same by the height over the segment's line.
fn see_near(seg: &Seg, spot: &Spot) -> Seen
    requires { seg.now.left.x ≤ℤ spot.now.floor_x }
    ensures below { result.inside ≡ is_below seg.now (point_of spot.now) }
    ensures on { result.edge ≡ is_on seg.now (point_of spot.now) }
{
    match side(seg, &spot.at) {
        Ordering::Less => Seen::NOTHING,
        Ordering::Equal => Seen {
            inside: false,
            edge: on(seg, &spot.at),
        },
        Ordering::Greater => Seen {
            inside: spot.floor_x < seg.right().x(),
            edge: false,
        },
    }
}
