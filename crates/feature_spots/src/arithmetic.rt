//! Exact comparisons of whole numbers and fractions.
ghost use Rattle.std.specs.Prelude.{◌≡◌, pos, ◌-ℤ◌, ◌*ℤ◌, int_lt, IfSome, IsSome, FitsSigned};
ghost use Rattle.std.specs.Int.{w128};
ghost use Rattle.std.specs.Ordering.{int_cmp};
ghost use Rattle.overlay_terms.specs.Within.{IsWithin};
ghost use Rattle.block_reading.specs.Jobs.{far_max};
ghost use Rattle.feature_spots.specs.Spots.{fine_max, past_max};

use std::cmp::Ordering;

/// How far a coordinate lies after another.
pub(crate) fn way(from: i64, to: i64) -> i128
    ensures { result ≡ to -ℤ from }
{
    i128::from(to) - i128::from(from)
}

/// A whole number times a denominator.
fn scaled(a: i64, w: i64) -> i128
    ensures { result ≡ a *ℤ w }
{
    i128::from(a) * i128::from(w)
}

/// How far x / w lies after a whole number, times w.
pub(crate) fn past(x: i64, w: i64, from: i64) -> i128
    ensures value { result ≡ x -ℤ (from *ℤ w) }
    ensures bound { IsWithin far_max from → IsWithin fine_max w → IsWithin past_max result }
{
    i128::from(x) - scaled(from, w)
}

/// Whether x / w lies before a whole number.
pub(crate) fn is_before(x: i64, w: i64, a: i64) -> bool
    ensures { result ≡ int_lt x (a *ℤ w) }
{
    i128::from(x) < scaled(a, w)
}

/// Whether x / w lies after a whole number.
pub(crate) fn is_after(x: i64, w: i64, a: i64) -> bool
    ensures { result ≡ int_lt (a *ℤ w) x }
{
    scaled(a, w) < i128::from(x)
}

/// The product, where it fits.
pub(crate) fn times(a: i128, b: i128) -> Option<i128>
    ensures value { IfSome result (λ z. z ≡ a *ℤ b) }
    ensures some { FitsSigned w128 (a *ℤ b) → IsSome result }
{
    a.checked_mul(b)
}

/// The difference, where it fits.
pub(crate) fn minus(a: i128, b: i128) -> Option<i128>
    ensures value { IfSome result (λ z. z ≡ a -ℤ b) }
    ensures some { FitsSigned w128 (a -ℤ b) → IsSome result }
{
    a.checked_sub(b)
}

/// A number against 0.
pub(crate) fn sign(z: i128) -> Ordering
    ensures { result ≡ int_cmp z (pos 0) }
{
    z.cmp(&0)
}
