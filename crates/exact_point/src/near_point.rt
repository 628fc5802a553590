//! Points in 64 bits.
ghost use Rattle.std.specs.Prelude.{◌≡◌, pos, neg_ℤ, ◌≤ℤ◌, ◌*ℤ◌, IfSome, IsNone};
ghost use Rattle.overlay_terms.specs.Column.{border};
ghost use Rattle.overlay_terms.specs.Plane.{coordinate_max, denominator_max, whole, whole_cmp};
ghost use Rattle.exact_point.specs.Crossing.{IsCrossingOf, IsOnlyCrossingOf, CrossNowhere};
ghost use Rattle.exact_point.specs.Near.{IsNear, HasEndsInRange};
ghost use Rattle.exact_point.specs.Place.{place};
ghost use Rattle.exact_point.specs.PlaceOf.{crossing_place, place_of};
ghost use Rattle.exact_point.specs.PointName.{IsCutBy, IsPlaceOf};
ghost use Rattle.exact_point.specs.declared.point_name.PointName.TheVariants.{Border};

use crate::crossing::cross_of;
use crate::point::HPoint;
use crate::point_name::border_point;
use plane_base::{Pt, Seg};
use std::cmp::Ordering;
use std::marker::Model;

/// A point whose numbers 64 bits hold: an end of a segment, a place on a border, or a crossing. It is seen as the point.
#[derive(Clone, Copy, Debug)]
pub struct NearPoint {
    pub(crate) x: i64,
    pub(crate) y: i64,
    pub(crate) w: i64,
    pub(crate) ghost w_low: { pos 1 ≤ℤ w },
    pub(crate) ghost w_high: { w ≤ℤ pos denominator_max },
    pub(crate) ghost x_low: { neg_ℤ (pos coordinate_max *ℤ w) ≤ℤ x },
    pub(crate) ghost x_high: { x ≤ℤ (pos coordinate_max *ℤ w) },
    pub(crate) ghost y_low: { neg_ℤ (pos coordinate_max *ℤ w) ≤ℤ y },
    pub(crate) ghost y_high: { y ≤ℤ (pos coordinate_max *ℤ w) },
}

impl Model for NearPoint {
    ghost use Rattle.exact_point.specs.declared.point.HPoint.{HPoint};

    ghost Value = { HPoint };

    ghost view = { λ p. record {
      x = p.x;
      y = p.y;
      w = p.w;
      w_low = p.w_low;
      w_high = p.w_high;
      x_low = p.x_low;
      x_high = p.x_high;
      y_low = p.y_low;
      y_high = p.y_high;
    } };

    ghost inverse = { λ p. record {
      x = p.x;
      y = p.y;
      w = p.w;
      w_low = p.w_low;
      w_high = p.w_high;
      x_low = p.x_low;
      x_high = p.x_high;
      y_low = p.y_low;
      y_high = p.y_high;
    } };
}

impl NearPoint {
    /// The same point in 64 bits.
    fn of(p: &HPoint) -> NearPoint
        requires { IsNear (place p.now) }
        ensures { result ≡ p.now }
    {
        NearPoint {
            x: p.x as i64,
            y: p.y as i64,
            w: p.w as i64,
        }
    }

    /// A point with whole coordinates.
    pub fn whole(p: Pt) -> NearPoint
        ensures { place result ≡ whole p }
    {
        NearPoint::of(&HPoint::of(p))
    }

    /// The place where the border of the column with this number, whose x is given, cuts a segment.
    pub fn on_border(seg: &Seg, number: u8, x: i64) -> NearPoint
        requires cut { IsCutBy seg.now number }
        requires over { x ≡ border number }
        ensures value { place result ≡ place_of (Border seg.now number) }
        ensures stands { IsPlaceOf (Border seg.now number) (place result) }
    {
        let at = border_point(seg, number, x);
        known_ends(seg);
        NearPoint::of(&at)
    }

    /// Its x times the denominator.
    pub fn x(self) -> i64
        ensures { result ≡ self.x }
    {
        self.x
    }

    /// Its y times the denominator.
    pub fn y(self) -> i64
        ensures { result ≡ self.y }
    {
        self.y
    }

    /// The denominator.
    pub fn w(self) -> i64
        ensures { result ≡ self.w }
    {
        self.w
    }

    /// The same point.
    pub fn point(self) -> HPoint
        ensures { result ≡ self }
    {
        HPoint {
            x: i128::from(self.x),
            y: i128::from(self.y),
            w: i128::from(self.w),
        }
    }
}

/// The place where two segments meet, as `cross_of` gives it.
pub fn near_cross_of(a: &Seg, b: &Seg) -> Option<NearPoint>
    ensures meets { IfSome result (λ z. IsCrossingOf a.now b.now (place z)) }
    ensures only { IfSome result (λ z. IsOnlyCrossingOf a.now b.now (place z)) }
    ensures none { IsNone result → CrossNowhere a.now b.now }
    ensures value { IfSome result (λ z. place z ≡ crossing_place a.now b.now) }
{
    let Some(at) = cross_of(a, b) else {
        return None;
    };
    known_ends(a);
    known_ends(b);
    Some(NearPoint::of(&at))
}

/// Says of a segment what is true of each: its ends are in range, the left one first. The call does nothing.
fn known_ends(seg: &Seg)
    ensures in_range { HasEndsInRange seg.now }
    ensures in_order { whole_cmp seg.now.left seg.now.right ≡ Ordering.Less }
{
    let (left, right) = (seg.left(), seg.right());
    let _ = (left.x(), left.y(), right.x(), right.y());
}
