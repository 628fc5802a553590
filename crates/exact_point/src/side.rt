//! Points against segments.
ghost use Rattle.std.specs.Prelude.{◌≡◌, ◌+◌, ◌^◌, ◌-ℤ◌, ◌*ℤ◌, ◌≤ℤ◌, pos};
ghost use Rattle.exact_point.specs.Lines.{near_max};
ghost use Rattle.overlay_terms.specs.Within.{IsWithin};
ghost use Rattle.std.specs.Ordering.{int_cmp};
ghost use Rattle.exact_point.specs.Place.{place};
ghost use Rattle.overlay_terms.specs.Column.{border, is_in_column};
ghost use Rattle.overlay_terms.specs.Plane.{whole, point_cmp, height_over, side_of, is_below, is_on};

use crate::arithmetic::{apart, cross, minus, near_cross, offset, product, scaled};
use crate::point::HPoint;
use plane_base::{Column, Pt, Seg};
use std::cmp::Ordering;

/// The greatest denominator of a point whose way from an end of a segment is reckoned in 64 bits.
const NEAR_MAX: i128 = 2199023255552;

/// How far a point lies to the right of the left end, times its denominator.
pub(crate) fn along(seg: &Seg, p: &HPoint) -> i128
    ensures value { result ≡ (place p.now).x -ℤ seg.now.left.x *ℤ (place p.now).w }
    ensures small { IsWithin (2 ^ 64) result }
{
    offset(p.x, scaled(seg.left().x(), p.w))
}

/// How far a point lies above the line of a segment, times the segment's width and the point's
/// denominator.
pub(crate) fn height(seg: &Seg, p: &HPoint, along: i128) -> i128
    requires value { along ≡ (place p.now).x -ℤ seg.now.left.x *ℤ (place p.now).w }
    requires small { IsWithin (2 ^ 64) along }
    ensures value { result ≡ height_over seg.now (place p.now) }
    ensures small { IsWithin (2 ^ 86) result }
{
    let left = seg.left();
    let right = seg.right();
    let wide = minus(right.x(), left.x());
    let high = minus(right.y(), left.y());
    let up = offset(p.y, scaled(left.y(), p.w));
    cross(wide, high, along, up)
}

/// The point against the line of the segment: greater above.
pub fn side(seg: &Seg, p: &HPoint) -> Ordering
    ensures { result ≡ side_of seg.now (place p.now) }
{
    if p.w <= NEAR_MAX {
        return near_height(seg, p).cmp(&0);
    }
    height(seg, p, along(seg, p)).cmp(&0)
}

/// As `height`, of a point with a denominator of at most `NEAR_MAX`.
fn near_height(seg: &Seg, p: &HPoint) -> i128
    requires { (place p.now).w ≤ℤ pos near_max }
    ensures { result ≡ height_over seg.now (place p.now) }
{
    let (left, right) = (seg.left(), seg.right());
    near_cross(
        minus(right.x(), left.x()),
        minus(right.y(), left.y()),
        apart(p.x, left.x(), p.w),
        apart(p.y, left.y(), p.w),
    )
}

/// Whether the segment is below the point.
pub fn below(seg: &Seg, p: &HPoint) -> bool
    ensures { result ≡ is_below seg.now (place p.now) }
{
    let along = along(seg, p);
    if along < 0 {
        return false;
    }
    if scaled(seg.right().x(), p.w) <= p.x {
        return false;
    }
    height(seg, p, along) > 0
}

/// Whether the point lies on the closed segment.
pub fn on(seg: &Seg, p: &HPoint) -> bool
    ensures { result ≡ is_on seg.now (place p.now) }
{
    if side(seg, p).is_ne() {
        return false;
    }
    let from_left = cmp_whole(p, seg.left());
    let from_right = cmp_whole(p, seg.right());
    // Eager, so that one equation says all: both orders are there already.
    !from_left.is_lt() & !from_right.is_gt()
}

/// A point against one with whole coordinates, in the order of points.
fn cmp_whole(p: &HPoint, q: Pt) -> Ordering
    ensures { result ≡ point_cmp (place p.now) (whole q) }
{
    let x = p.x.cmp(&scaled(q.x(), p.w));
    if x.is_ne() {
        return x;
    }
    p.y.cmp(&scaled(q.y(), p.w))
}

/// Two points by x alone.
pub fn x_cmp(p: &HPoint, q: &HPoint) -> Ordering
    ensures { result ≡ int_cmp ((place p.now).x *ℤ (place q.now).w) ((place q.now).x *ℤ (place p.now).w) }
{
    product(p.x, q.w).cmp(&product(q.x, p.w))
}

/// A point against the left border of a column: greater right of it.
pub fn border_side(column: Column, p: &HPoint) -> Ordering
    ensures { result ≡ int_cmp (place p.now).x (border column *ℤ (place p.now).w) }
{
    p.x.cmp(&scaled(column.border(), p.w))
}

/// A point against the right border of a column: less left of it. The last column has no other column
/// right of it, and all points lie left of its right border.
pub fn end_side(column: Column, p: &HPoint) -> Ordering
    ensures { result ≡ int_cmp (place p.now).x (border (column + 1) *ℤ (place p.now).w) }
{
    match Column::new(u64::from(column.number()) + 1) {
        Some(next) => border_side(next, p),
        None => Ordering::Less,
    }
}

/// Whether a point lies in a column: at its left border or right of it, and left of its right border.
pub fn is_in(column: Column, p: &HPoint) -> bool
    ensures { result ≡ is_in_column column (place p.now) }
{
    if border_side(column, p).is_lt() {
        return false;
    }
    end_side(column, p).is_lt()
}
