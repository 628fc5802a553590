//! The names of places, from which their exact coordinates can be had again.
ghost use Rattle.std.specs.Prelude.{◌≡◌, ◌↔◌, ◌<ℤ◌, pos, IsTrue, IsSome, IfSome};
ghost use Rattle.overlay_terms.specs.Column.{border};
ghost use Rattle.overlay_terms.specs.Plane.{Point, same_place};
ghost use Rattle.exact_point.specs.Place.{place};
ghost use Rattle.exact_point.specs.PlaceOf.{place_of, cut_place};
ghost use Rattle.exact_point.specs.PointName.{IsPlaceOf, IsOnlyPlaceOf, HasPlace, IsCutBy, IsCutOf};

use crate::arithmetic::minus;
use crate::crossing::{cross_of, known_crossing, part_way};
use crate::point::HPoint;
use plane_base::{Column, Pt, Seg};

/// A place, named by what makes it.
#[derive(Clone, Copy, Debug, PartialEq, Eq)]
pub enum PointName {
    Vertex(Pt),
    Cross(Seg, Seg),
    /// Where the border of the column with this number cuts the segment, strictly between its ends.
    Border(Seg, u8),
}

impl PointName {
    /// The place of the name, if it has one.
    pub fn point(&self) -> Option<HPoint>
        ensures known { IsSome result ↔ HasPlace self.now }
        ensures place { IfSome result (λ z. IsPlaceOf self.now (place z)) }
        ensures only { IfSome result (λ z. IsOnlyPlaceOf self.now (place z)) }
        ensures value { IfSome result (λ z. place z ≡ place_of self.now) }
    {
        match self {
            PointName::Vertex(vertex) => Some(HPoint::of(*vertex)),
            PointName::Cross(a, b) => cross_of(a, b),
            PointName::Border(seg, number) => border_cut(seg, *number),
        }
    }

    /// The place of the name, of a name that has one.
    pub fn known_point(&self) -> HPoint
        requires { HasPlace self.now }
        ensures value { place result ≡ place_of self.now }
        ensures stands { IsPlaceOf self.now (place result) }
    {
        match self {
            PointName::Cross(a, b) => known_crossing(a, b),
            _ => self.point().unwrap(),
        }
    }
}

/// The place where the border of the column with this number, whose x is given, cuts a segment.
pub(crate) fn border_point(seg: &Seg, number: u8, x: i64) -> HPoint
    requires cut { IsCutBy seg.now number }
    requires over { x ≡ border number }
    ensures value { place result ≡ place_of (PointName.Border seg.now number) }
    ensures stands { IsPlaceOf (PointName.Border seg.now number) (place result) }
{
    let (left, right) = (seg.left().x(), seg.right().x());
    part_way(seg, minus(x, left), minus(right, left))
}

/// Where the border of the column with this number cuts a segment strictly between its ends, if it does.
fn border_cut(seg: &Seg, number: u8) -> Option<HPoint>
    ensures known { IsSome result ↔ IsCutBy seg.now number }
    ensures place { IfSome result (λ z. IsCutOf seg.now number (place z)) }
    ensures only { IfSome result (λ z. (p : Point) → pos 0 <ℤ p.w → IsCutOf seg.now number p
        → IsTrue (same_place (place z) p)) }
    ensures value { IfSome result (λ z. place z ≡ cut_place seg.now number) }
{
    let Some(column) = Column::new(u64::from(number)) else {
        return None;
    };
    let x = column.border();
    if x <= seg.left().x() {
        return None;
    }
    if seg.right().x() <= x {
        return None;
    }
    Some(border_point(seg, number, x))
}
