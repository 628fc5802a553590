//! Segments against the middle of two points.
ghost use Rattle.std.specs.Prelude.{◌≡◌, ◌^◌, ◌+ℤ◌, ◌-ℤ◌, ◌*ℤ◌, pos, int_lt};
ghost use Rattle.overlay_terms.specs.Within.{IsWithin};
ghost use Rattle.exact_point.specs.Place.{place};
ghost use Rattle.overlay_terms.specs.Plane.{denominator_max, is_below};
ghost use Rattle.overlay_terms.specs.Tiles.{midpoint};

use crate::arithmetic::{by_256, offset, scaled, sum_of_products};
use crate::point::HPoint;
use crate::side::{along, height};
use plane_base::Seg;

/// Whether the segment is below the middle of two points.
pub fn below_middle(seg: &Seg, from: &HPoint, to: &HPoint) -> bool
    ensures { result ≡ is_below seg.now (midpoint (place from.now) (place to.now)) }
{
    let (first, second) = (along(seg, from), along(seg, to));
    if sum_of_products(first, to.w, second, from.w) < 0 {
        return false;
    }
    if sum_of_products(past_right(seg, from), to.w, past_right(seg, to), from.w) >= 0 {
        return false;
    }
    is_sum_positive(
        height(seg, from, first),
        to.w,
        height(seg, to, second),
        from.w,
    )
}

/// How far a point lies to the right of the right end, times its denominator.
fn past_right(seg: &Seg, p: &HPoint) -> i128
    ensures value { result ≡ (place p.now).x -ℤ seg.now.right.x *ℤ (place p.now).w }
    ensures small { IsWithin (2 ^ 64) result }
{
    offset(p.x, scaled(seg.right().x(), p.w))
}

/// Whether a sum of two products is positive. Either may be too large for its type.
fn is_sum_positive(a: i128, v: i128, b: i128, w: i128) -> bool
    requires a_small { IsWithin (2 ^ 86) a }
    requires v_small { IsWithin denominator_max v }
    requires b_small { IsWithin (2 ^ 86) b }
    requires w_small { IsWithin denominator_max w }
    ensures { result ≡ int_lt (pos 0) ((a *ℤ v) +ℤ (b *ℤ w)) }
{
    let (first, second) = (by_256(a), by_256(b));
    let high = sum_of_products(first.0, v, second.0, w);
    let low = sum_of_products(first.1, v, second.1, w);
    is_positive(high, low)
}

/// Whether 256 times a number and another are together positive.
fn is_positive(high: i128, low: i128) -> bool
    requires high_small { IsWithin (2 ^ 122) high }
    requires low_small { IsWithin (2 ^ 122) low }
    ensures { result ≡ int_lt (pos 0) ((pos 256 *ℤ high) +ℤ low) }
{
    let (carry, rest) = by_256(low);
    let whole = high + carry;
    // Eager, so that one equation says all: neither side costs more than a comparison.
    (whole > 0) | ((whole >= 0) & (rest > 0))
}
