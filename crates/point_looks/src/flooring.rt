//! Whole numbers next to a fraction.
ghost use Rattle.std.specs.Prelude.{◌≡◌, pos, neg_ℤ, ◌+◌, ◌*◌, ◌<◌, ◌≤◌, ◌+ℤ◌, ◌*ℤ◌, ◌≤ℤ◌};
ghost use Rattle.overlay_terms.specs.Within.{IsWithin};
ghost use Rattle.overlay_terms.specs.Plane.{coordinate_max, denominator_max};
ghost use Rattle.point_looks.specs.Floor.{IsFloor, IsCeil};

use plane_base::COORD_MAX;

/// The greatest whole number that is at most x / w.
pub(crate) fn floor(x: i128, w: i128) -> i64
    requires w_low { pos 1 ≤ℤ w }
    requires w_high { w ≤ℤ pos denominator_max }
    requires x_low { neg_ℤ (pos coordinate_max *ℤ w) ≤ℤ x }
    requires x_high { x ≤ℤ (pos coordinate_max *ℤ w) }
    ensures value { IsFloor result x w }
    ensures small { IsWithin coordinate_max result }
{
    // Most points that are asked for are whole, and no division is made for these.
    if w == 1 {
        return whole(x);
    }
    let steps = whole_part(from_edge(x, w), w as u128);
    steps as i64 - COORD_MAX
}

/// The least whole number that is at least x / w.
pub(crate) fn ceil(x: i128, w: i128) -> i64
    requires w_low { pos 1 ≤ℤ w }
    requires w_high { w ≤ℤ pos denominator_max }
    requires x_low { neg_ℤ (pos coordinate_max *ℤ w) ≤ℤ x }
    requires x_high { x ≤ℤ (pos coordinate_max *ℤ w) }
    ensures { IsCeil result x w }
{
    -floor(-x, w)
}

/// A coordinate over the denominator 1.
fn whole(x: i128) -> i64
    requires { IsWithin coordinate_max x }
    ensures { result ≡ x }
{
    x as i64
}

/// How far x lies right of the plane's left edge, over the denominator w.
fn from_edge(x: i128, w: i128) -> u128
    requires w_low { pos 1 ≤ℤ w }
    requires w_high { w ≤ℤ pos denominator_max }
    requires x_low { neg_ℤ (pos coordinate_max *ℤ w) ≤ℤ x }
    requires x_high { x ≤ℤ (pos coordinate_max *ℤ w) }
    ensures { pos result ≡ x +ℤ (pos coordinate_max *ℤ w) }
{
    (x + i128::from(COORD_MAX) * w) as u128
}

/// How often w goes into n.
fn whole_part(n: u128, w: u128) -> u128
    requires { 0 < w }
    ensures low { result * w ≤ n }
    ensures high { n < (result + 1) * w }
{
    n / w
}
