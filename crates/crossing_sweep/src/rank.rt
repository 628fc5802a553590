//! Whole numbers that give the order of most places.
ghost use Rattle.std.specs.Prelude.{◌≡◌, ◌&&◌, int_le, int_lt, ◌^◌, ◌*◌, ◌≤◌, ◌+ℤ◌, ◌-ℤ◌, ◌*ℤ◌, ◌≤ℤ◌, pos, neg_ℤ, unsigned_abs};
ghost use Rattle.std.specs.Ordering.{int_eq};
ghost use Rattle.overlay_terms.specs.Plane.{InRange, coordinate_max, denominator_max, whole};
ghost use Rattle.overlay_terms.specs.Within.{IsWithin};
ghost use Rattle.exact_point.specs.Lines.{near_max};
ghost use Rattle.exact_point.specs.Place.{place, hpoint_cmp};
ghost use Rattle.crossing_sweep.specs.Rank.{IsFloor, IsRank, is_between};

use exact_point::{HPoint, NearPoint};
use plane_base::{COORD_MAX, Pt};
use std::cmp::Ordering;

/// The greatest denominator over which a coordinate is divided in 64 bits.
const NEAR_MAX: i128 = 2199023255552;

/// The rank of a place: a place with a lower one comes before it. Those with a whole x, as on the borders of a
/// column, are ordered by y, too.
pub(crate) fn rank(p: &HPoint) -> i64
    ensures { ∥ IsRank result (place p.now) ∥₁ }
{
    let across = floor(p.x, p.w);
    if is_whole(across, p.x, p.w) {
        return numbered(across, floor(p.y, p.w));
    }
    numbered(across, 2 * COORD_MAX)
}

/// The same of a place over a whole x.
pub(crate) fn rank_over(across: i64, p: &HPoint) -> i64
    requires in_range { InRange across }
    requires upright { across *ℤ (place p.now).w ≡ (place p.now).x }
    ensures { ∥ IsRank result (place p.now) ∥₁ }
{
    numbered(across, floor(p.y, p.w))
}

/// The rank of a whole point.
pub(crate) fn whole_rank(p: Pt) -> i64
    ensures { ∥ IsRank result (whole p) ∥₁ }
{
    numbered(p.x(), p.y())
}

/// Whether a coordinate over its denominator is a whole number.
fn is_whole(number: i64, x: i128, w: i128) -> bool
    requires number_small { InRange number }
    requires w_small { IsWithin denominator_max w }
    ensures { result ≡ int_eq (number *ℤ w) x }
{
    i128::from(number) * w == x
}

/// The number of a row over a whole x.
fn numbered(across: i64, row: i64) -> i64
    requires across_small { InRange across }
    requires row_small { IsWithin (2 ^ 21) row }
    ensures { result ≡ (pos (2 ^ 22) *ℤ across) +ℤ row }
{
    4 * COORD_MAX * across + row
}

/// The least rank over a whole x.
pub(crate) fn first_rank(across: i64) -> i64
    requires { IsWithin (2 ^ 21) across }
    ensures { result ≡ (pos (2 ^ 22) *ℤ across) -ℤ pos (2 ^ 20) }
{
    4 * COORD_MAX * across - COORD_MAX
}

/// Whether a rank lies from one on, and before another.
pub(crate) fn is_ranked_within(rank: i64, from: i64, to: i64) -> bool
    ensures { result ≡ (int_le from rank && int_lt rank to) }
{
    // Eager, so that one equation says all: neither side costs more than a comparison.
    (from <= rank) & (rank < to)
}

/// Whether a rank is that of places between two whole x.
pub(crate) fn is_between(rank: i64) -> bool
    ensures { result ≡ is_between rank }
{
    rank.rem_euclid(4 * COORD_MAX) == 2 * COORD_MAX
}

/// The greatest whole number that is not above a coordinate over its denominator.
fn floor(x: i128, w: i128) -> i64
    requires w_low { pos 1 ≤ℤ w }
    requires w_high { w ≤ℤ pos denominator_max }
    requires low { neg_ℤ (pos coordinate_max *ℤ w) ≤ℤ x }
    requires high { x ≤ℤ (pos coordinate_max *ℤ w) }
    ensures value { IsFloor result x w }
    ensures small { InRange result }
{
    // Many places are whole, and no division is made for these.
    if w == 1 {
        return whole(x);
    }
    if w <= NEAR_MAX {
        let (near_x, near_w) = (narrow(x), narrow(w));
        return near_floor(near_x, near_w);
    }
    (from_lowest(x, w) / w as u128) as i64 - COORD_MAX
}

/// A coordinate over the denominator 1.
fn whole(x: i128) -> i64
    requires { InRange x }
    ensures { result ≡ x }
{
    x as i64
}

/// The same number in 64 bits.
fn narrow(z: i128) -> i64
    requires { IsWithin (2 ^ 61) z }
    ensures { result ≡ z }
{
    z as i64
}

/// As `floor`, over a denominator of at most `NEAR_MAX`.
fn near_floor(x: i64, w: i64) -> i64
    requires w_low { pos 1 ≤ℤ w }
    requires w_high { w ≤ℤ pos near_max }
    requires low { neg_ℤ (pos coordinate_max *ℤ w) ≤ℤ x }
    requires high { x ≤ℤ (pos coordinate_max *ℤ w) }
    ensures value { IsFloor result x w }
    ensures small { InRange result }
{
    (near_from_lowest(x, w) / w as u64) as i64 - COORD_MAX
}

/// As `from_lowest`, over a denominator of at most `NEAR_MAX`.
fn near_from_lowest(x: i64, w: i64) -> u64
    requires w_low { pos 1 ≤ℤ w }
    requires w_high { w ≤ℤ pos near_max }
    requires low { neg_ℤ (pos coordinate_max *ℤ w) ≤ℤ x }
    requires high { x ≤ℤ (pos coordinate_max *ℤ w) }
    ensures value { pos result ≡ x +ℤ (pos coordinate_max *ℤ w) }
    ensures small { result ≤ 2 ^ 21 * unsigned_abs w }
{
    (x + COORD_MAX * w) as u64
}

/// How far a coordinate lies above the lowest one, over the same denominator.
fn from_lowest(x: i128, w: i128) -> u128
    requires w_low { pos 1 ≤ℤ w }
    requires w_high { w ≤ℤ pos denominator_max }
    requires low { neg_ℤ (pos coordinate_max *ℤ w) ≤ℤ x }
    requires high { x ≤ℤ (pos coordinate_max *ℤ w) }
    ensures value { pos result ≡ x +ℤ (pos coordinate_max *ℤ w) }
    ensures small { result ≤ 2 ^ 21 * unsigned_abs w }
{
    (x + i128::from(COORD_MAX) * w) as u128
}

/// The order of two places, by their ranks where these differ.
pub(crate) fn ranked_cmp(a: i64, p: &NearPoint, b: i64, q: &NearPoint) -> Ordering
    requires first { ∥ IsRank a (place p.now) ∥₁ }
    requires second { ∥ IsRank b (place q.now) ∥₁ }
    ensures { result ≡ hpoint_cmp p.now q.now }
{
    if a != b {
        return a.cmp(&b);
    }
    exact_cmp(p, q)
}

/// The order of two places by their coordinates. Few places want it, so that it is kept out of the loops of sorts.
#[inline(never)]
fn exact_cmp(p: &NearPoint, q: &NearPoint) -> Ordering
    ensures { result ≡ hpoint_cmp p.now q.now }
{
    p.point().cmp(&q.point())
}
