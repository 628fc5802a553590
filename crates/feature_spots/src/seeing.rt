//! What is seen of a step from a point.
ghost use Rattle.std.specs.Prelude.{◌≡◌, ◌<ℤ◌, ◌≤ℤ◌, ◌-ℤ◌, ◌*ℤ◌, int_lt, IfSome, IsSome};
ghost use Rattle.overlay_terms.specs.Within.{IsWithin};
ghost use Rattle.overlay_terms.specs.Plane.{height_over, side_of, is_on, is_below};
ghost use Rattle.feature_spots.specs.Spots.{is_on_step, is_step_below, past_max, IsNear, IsFine};

use crate::arithmetic::{is_after, is_before, minus, past, sign, times, way};
use block_reading::{FarFraction, FarPoint};
use std::cmp::Ordering;

/// What is seen of a step from a point: the point is on it; the step is below it.
#[derive(Clone, Copy, Debug)]
pub(crate) struct Seen {
    pub on: bool,
    pub below: bool,
}

/// Nothing seen.
pub(crate) const NOTHING: Seen = Seen {
    on: false,
    below: false,
};

/// Whether a point lies left of another.
fn is_left(p: &FarFraction, a: FarPoint) -> bool
    ensures { result ≡ int_lt p.now.x (a.x *ℤ p.now.w) }
{
    is_before(p.x, p.w, a.x)
}

/// Whether a point lies right of another.
fn is_right(p: &FarFraction, a: FarPoint) -> bool
    ensures { result ≡ int_lt (a.x *ℤ p.now.w) p.now.x }
{
    is_after(p.x, p.w, a.x)
}

/// Whether a point lies lower than another.
fn is_lower(p: &FarFraction, a: FarPoint) -> bool
    ensures { result ≡ int_lt p.now.y (a.y *ℤ p.now.w) }
{
    is_before(p.y, p.w, a.y)
}

/// Whether a point lies higher than another.
fn is_higher(p: &FarFraction, a: FarPoint) -> bool
    ensures { result ≡ int_lt (a.y *ℤ p.now.w) p.now.y }
{
    is_after(p.y, p.w, a.y)
}

/// How far a step leads to the right.
fn width(a: FarPoint, b: FarPoint) -> i128
    ensures { result ≡ b.x -ℤ a.x }
{
    way(a.x, b.x)
}

/// How far a step leads up.
fn rise(a: FarPoint, b: FarPoint) -> i128
    ensures { result ≡ b.y -ℤ a.y }
{
    way(a.y, b.y)
}

/// How far a point lies right of another, times its denominator.
fn along(p: &FarFraction, a: FarPoint) -> i128
    ensures value { result ≡ p.now.x -ℤ (a.x *ℤ p.now.w) }
    ensures bound { IsNear a → IsFine p.now → IsWithin past_max result }
{
    past(p.x, p.w, a.x)
}

/// How far a point lies over another, times its denominator.
fn over(p: &FarFraction, a: FarPoint) -> i128
    ensures value { result ≡ p.now.y -ℤ (a.y *ℤ p.now.w) }
    ensures bound { IsNear a → IsFine p.now → IsWithin past_max result }
{
    past(p.y, p.w, a.y)
}

/// How far a point lies above the line of a step, times the step's width and the point's denominator; none where numbers
/// are too large.
fn height(a: FarPoint, b: FarPoint, p: &FarFraction) -> Option<i128>
    ensures value { IfSome result (λ h. h ≡ height_over (record { left = a; right = b }) p.now) }
    ensures some { IsNear a → IsNear b → IsFine p.now → IsSome result }
{
    let up = times(width(a, b), over(p, a))?;
    let side = times(rise(a, b), along(p, a))?;
    minus(up, side)
}

/// A point against the line of a step that leads to the right: greater above it; none where numbers are too large.
fn side(a: FarPoint, b: FarPoint, p: &FarFraction) -> Option<Ordering>
    ensures value { IfSome result (λ order. order ≡ side_of (record { left = a; right = b }) p.now) }
    ensures some { IsNear a → IsNear b → IsFine p.now → IsSome result }
{
    let height = height(a, b, p)?;
    Some(sign(height))
}

/// What is seen of a step that leads to the right; none where numbers are too large.
fn see_right(a: FarPoint, b: FarPoint, p: &FarFraction) -> Option<Seen>
    requires { a.x <ℤ b.x }
    ensures on { IfSome result (λ seen. seen.on ≡ is_on (record { left = a; right = b }) p.now) }
    ensures below { IfSome result (λ seen. seen.below ≡ is_below (record { left = a; right = b }) p.now) }
    ensures some { IsNear a → IsNear b → IsFine p.now → IsSome result }
{
    if is_left(p, a) {
        return Some(NOTHING);
    }
    if is_right(p, b) {
        return Some(NOTHING);
    }
    match side(a, b, p)? {
        Ordering::Less => Some(NOTHING),
        Ordering::Equal => Some(Seen {
            on: true,
            below: false,
        }),
        Ordering::Greater => Some(Seen {
            on: false,
            below: is_left(p, b),
        }),
    }
}

/// What is seen of an upright step that leads up, or of a point.
fn see_upright(a: FarPoint, b: FarPoint, p: &FarFraction) -> Seen
    requires upright { a.x ≡ b.x }
    requires up { a.y ≤ℤ b.y }
    ensures on { result.on ≡ is_on_step p.now (a, b) }
    ensures below { result.below ≡ is_step_below p.now (a, b) }
{
    if is_left(p, a) {
        return NOTHING;
    }
    if is_right(p, a) {
        return NOTHING;
    }
    if is_lower(p, a) {
        return NOTHING;
    }
    if is_higher(p, b) {
        return NOTHING;
    }
    Seen {
        on: true,
        below: false,
    }
}

/// What is seen of a step; none where numbers are too large.
pub(crate) fn see(a: FarPoint, b: FarPoint, p: &FarFraction) -> Option<Seen>
    ensures on { IfSome result (λ seen. seen.on ≡ is_on_step p.now (a, b)) }
    ensures below { IfSome result (λ seen. seen.below ≡ is_step_below p.now (a, b)) }
    ensures some { IsNear a → IsNear b → IsFine p.now → IsSome result }
{
    if a.x < b.x {
        see_right(a, b, p)
    } else if b.x < a.x {
        see_right(b, a, p)
    } else if a.y <= b.y {
        Some(see_upright(a, b, p))
    } else {
        Some(see_upright(b, a, p))
    }
}
