//! Where two segments cross, as a fraction (`part_way`), and the place of a segment at a number of parts of its run.
ghost use Rattle.std.specs.Prelude.{◌≡◌, ◌^◌, ◌+ℤ◌, ◌-ℤ◌, ◌*ℤ◌, ◌<ℤ◌, ◌≤ℤ◌, ◌↔◌, pos, neg_ℤ, IsTrue, IfSome, IsNone};
ghost use Rattle.std.specs.Ordering.{int_cmp};
ghost use Rattle.overlay_terms.specs.Plane.{coordinate_max, denominator_max, InRange, Point, same_place, whole_cmp};
ghost use Rattle.overlay_terms.specs.Within.{IsWithin};
ghost use Rattle.exact_point.specs.Place.{place};
ghost use Rattle.exact_point.specs.CutOver.{IsCutOver, cut_over};
ghost use Rattle.exact_point.specs.PlaceOf.{crossing_place, part_way as way_place};
ghost use Rattle.exact_point.specs.Crossing.{IsCrossingOf, IsOnlyCrossingOf, CrossNowhere, IsPartWay, turn_of, lead_of};

use crate::arithmetic::{minus, sum, whole_cross, wide};
use crate::point::HPoint;
use plane_base::Seg;
use std::cmp::Ordering;

/// The place where two segments meet, unless they are parallel or have no common point.
pub fn cross_of(a: &Seg, b: &Seg) -> Option<HPoint>
    ensures meets { IfSome result (λ z. IsCrossingOf a.now b.now (place z)) }
    ensures only { IfSome result (λ z. IsOnlyCrossingOf a.now b.now (place z)) }
    ensures none { IsNone result → CrossNowhere a.now b.now }
    ensures value { IfSome result (λ z. place z ≡ crossing_place a.now b.now) }
{
    let left = turn(a, b);
    match left.cmp(&0) {
        Ordering::Greater => meeting(a, b, left),
        Ordering::Less => meeting(b, a, turn(b, a)),
        Ordering::Equal => None,
    }
}

/// The place where two segments meet, the second of which turns left from the first. The turn is
/// the denominator of the place, and of how far along each segment it lies.
fn meeting(a: &Seg, b: &Seg, left: i64) -> Option<HPoint>
    requires positive { pos 0 <ℤ left }
    requires value { left ≡ turn_of a.now b.now }
    requires small { IsWithin denominator_max left }
    ensures meets { IfSome result (λ z. IsCrossingOf a.now b.now (place z)) }
    ensures only { IfSome result (λ z. IsOnlyCrossingOf a.now b.now (place z)) }
    ensures none { IsNone result → CrossNowhere a.now b.now }
    ensures value { IfSome result (λ z. place z ≡ way_place a.now (lead_of a.now b.now b.now) left) }
{
    let along_first = lead(a, b, b);
    if !is_part(along_first, left) {
        return None;
    }
    let along_second = lead(a, b, a);
    if !is_part(along_second, left) {
        return None;
    }
    Some(part_way(a, along_first, left))
}

/// The place where two segments cross that are known to.
pub(crate) fn known_crossing(a: &Seg, b: &Seg) -> HPoint
    requires { (p : Point) × (pos 0 <ℤ p.w) × IsCrossingOf a.now b.now p }
    ensures meets { IsCrossingOf a.now b.now (place result) }
    ensures value { place result ≡ crossing_place a.now b.now }
{
    let left = turn(a, b);
    if left < 0 {
        return known_meeting(b, a, -left);
    }
    known_meeting(a, b, left)
}

/// The same of two segments the second of which turns left from the first. Where it lies is not asked again.
fn known_meeting(a: &Seg, b: &Seg, left: i64) -> HPoint
    requires meets { (p : Point) × (pos 0 <ℤ p.w) × IsCrossingOf a.now b.now p }
    requires positive { pos 0 <ℤ left }
    requires value { left ≡ turn_of a.now b.now }
    requires small { IsWithin denominator_max left }
    ensures meets { IsCrossingOf a.now b.now (place result) }
    ensures value { place result ≡ way_place a.now (lead_of a.now b.now b.now) left }
{
    part_way(a, lead(a, b, b), left)
}

/// Whether t / w of a way lies on it.
fn is_part(t: i64, w: i64) -> bool
    ensures { IsTrue result ↔ ((pos 0 ≤ℤ t) × (t ≤ℤ w)) }
{
    0 <= t && t <= w
}

/// Which way a segment goes from another: less where the second turns left from the first.
pub fn direction_cmp(a: &Seg, b: &Seg) -> Ordering
    ensures { result ≡ int_cmp (pos 0) (turn_of a.now b.now) }
{
    0_i64.cmp(&turn(a, b))
}

/// How far the second segment turns left from the first, as the cross product of their directions.
fn turn(a: &Seg, b: &Seg) -> i64
    ensures value { result ≡ turn_of a.now b.now }
    ensures small { IsWithin denominator_max result }
{
    let (first, second) = (a.right(), b.right());
    whole_cross(
        minus(first.x(), a.left().x()),
        minus(first.y(), a.left().y()),
        minus(second.x(), b.left().x()),
        minus(second.y(), b.left().y()),
    )
}

/// The cross product of the way between two left ends with the direction of a segment.
fn lead(from: &Seg, to: &Seg, direction: &Seg) -> i64
    ensures value { result ≡ lead_of from.now to.now direction.now }
    ensures from_ahead { whole_cmp from.now.left from.now.right ≡ Ordering.Less }
    ensures to_ahead { whole_cmp to.now.left to.now.right ≡ Ordering.Less }
    ensures small { IsWithin denominator_max result }
{
    let (begin, end) = (direction.left(), direction.right());
    whole_cross(
        minus(to.left().x(), from.left().x()),
        minus(to.left().y(), from.left().y()),
        minus(end.x(), begin.x()),
        minus(end.y(), begin.y()),
    )
}

/// The place t / w of the way from a segment's left end to its right end.
pub(crate) fn part_way(seg: &Seg, t: i64, w: i64) -> HPoint
    requires t_low { pos 0 ≤ℤ t }
    requires t_high { t ≤ℤ w }
    requires w_low { pos 1 ≤ℤ w }
    requires w_high { w ≤ℤ pos denominator_max }
    ensures { IsPartWay seg.now t w (place result) }
{
    let (left, right) = (seg.left(), seg.right());
    HPoint {
        x: between(left.x(), right.x(), t, w),
        y: between(left.y(), right.y(), t, w),
        w: i128::from(w),
    }
}

/// The coordinate t / w of the way from one to another, over the denominator w.
fn between(from: i64, to: i64, t: i64, w: i64) -> i128
    requires from_small { InRange from }
    requires to_small { InRange to }
    requires t_low { pos 0 ≤ℤ t }
    requires t_high { t ≤ℤ w }
    requires w_high { w ≤ℤ pos denominator_max }
    ensures value { result ≡ (from *ℤ w) +ℤ ((to -ℤ from) *ℤ t) }
    ensures low { neg_ℤ (pos coordinate_max *ℤ w) ≤ℤ result }
    ensures high { result ≤ℤ (pos coordinate_max *ℤ w) }
{
    sum(wide(from, w), wide(minus(to, from), t))
}

/// The same coordinate, where 64 bits hold it.
fn near_between(from: i64, to: i64, t: i64, w: i64) -> i64
    requires from_small { InRange from }
    requires to_small { InRange to }
    requires t_low { pos 0 ≤ℤ t }
    requires t_high { t ≤ℤ w }
    requires w_small { IsWithin (2 ^ 21) w }
    ensures value { result ≡ (from *ℤ w) +ℤ ((to -ℤ from) *ℤ t) }
    ensures low { neg_ℤ (pos coordinate_max *ℤ w) ≤ℤ result }
    ensures high { result ≤ℤ (pos coordinate_max *ℤ w) }
{
    from * w + minus(to, from) * t
}

/// The denominator of the place where the vertical line over a whole x cuts a segment between its ends, and its y times
/// the denominator, where 64 bits hold both.
pub(crate) fn near_cut(seg: &Seg, x: i64) -> (i64, i64)
    requires in_range { InRange x }
    requires after_left { seg.now.left.x <ℤ x }
    requires before_right { x <ℤ seg.now.right.x }
    ensures known { IsCutOver seg.now x }
    ensures over { result.0 ≡ (cut_over seg.now x).w }
    ensures along { result.1 ≡ (cut_over seg.now x).y }
{
    let (left, right) = (seg.left(), seg.right());
    let w = minus(right.x(), left.x());
    (w, near_between(left.y(), right.y(), minus(x, left.x()), w))
}
