//! Places in parts of a unit.
ghost use Rattle.std.specs.Prelude.{◌≡◌, ◌^◌, ◌+ℤ◌, ◌*ℤ◌, pos};
ghost use Rattle.overlay_terms.specs.Within.{IsWithin};
ghost use Rattle.exact_point.specs.Place.{place};
ghost use Rattle.swept_area.specs.Swept.{in_parts, parts};
ghost use Rattle.swept_area.specs.Pieces.{point_from};

use crate::piece::Shift;
use exact_point::HPoint;

/// Into how many parts a unit is divided.
const PARTS: i128 = 1099511627776;

/// The x of a place in parts of a unit, rounded down.
fn x_parts(p: &HPoint) -> i128
    ensures value { result ≡ in_parts (place p.now).x (place p.now).w }
    ensures small { IsWithin (2 ^ 60) result }
{
    if p.w <= 1 {
        return p.x * PARTS;
    }
    (p.x * PARTS).div_euclid(p.w)
}

/// The y of a place in parts of a unit, rounded down.
fn y_parts(p: &HPoint) -> i128
    ensures value { result ≡ in_parts (place p.now).y (place p.now).w }
    ensures small { IsWithin (2 ^ 60) result }
{
    if p.w <= 1 {
        return p.y * PARTS;
    }
    (p.y * PARTS).div_euclid(p.w)
}

/// A number of parts, and so many units more.
fn farther(v: i128, by: i64) -> i128
    requires v_small { IsWithin (2 ^ 60) v }
    requires by_small { IsWithin (2 ^ 41) by }
    ensures value { result ≡ v +ℤ (by *ℤ pos parts) }
    ensures small { IsWithin (2 ^ 82) result }
{
    v + i128::from(by) * PARTS
}

/// The x of a place, seen from the origin, in parts.
pub(crate) fn x_from(p: &HPoint, by: &Shift) -> i128
    ensures value { result ≡ in_parts (point_from by.now (place p.now)).x (point_from by.now (place p.now)).w }
    ensures small { IsWithin (2 ^ 82) result }
{
    farther(x_parts(p), by.x)
}

/// The y of a place, seen from the origin, in parts.
pub(crate) fn y_from(p: &HPoint, by: &Shift) -> i128
    ensures value { result ≡ in_parts (point_from by.now (place p.now)).y (point_from by.now (place p.now)).w }
    ensures small { IsWithin (2 ^ 82) result }
{
    farther(y_parts(p), by.y)
}
