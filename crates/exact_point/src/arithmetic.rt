//! Exact sums and products of bounded numbers, one or two operations each.
ghost use Rattle.std.specs.Prelude.{◌≡◌, ℕ, ◌^◌, ◌*◌, ◌+ℤ◌, ◌-ℤ◌, ◌*ℤ◌, ◌≤ℤ◌, pos};
ghost use Rattle.overlay_terms.specs.Within.{IsWithin};
ghost use Rattle.overlay_terms.specs.Plane.{denominator_max, InRange};
ghost use Rattle.exact_point.specs.Lines.{near_max};

/// How far a coordinate lies after another.
pub fn minus(a: i64, b: i64) -> i64
    requires a_small { InRange a }
    requires b_small { InRange b }
    ensures value { result ≡ a -ℤ b }
    ensures small { IsWithin (2 ^ 21) result }
{
    a - b
}

/// The product of a way and a denominator, or what is of its size.
pub(crate) fn wide(a: i64, w: i64) -> i128
    requires a_small { IsWithin (2 ^ 21) a }
    requires w_small { IsWithin denominator_max w }
    ensures value { result ≡ a *ℤ w }
    ensures small { IsWithin (2 ^ 64) result }
{
    i128::from(a) * i128::from(w)
}

/// A whole coordinate over the denominator w.
pub(crate) fn scaled(x: i64, w: i128) -> i128
    requires x_small { InRange x }
    requires w_low { pos 0 ≤ℤ w }
    requires w_small { IsWithin denominator_max w }
    ensures value { result ≡ x *ℤ w }
    ensures small { IsWithin (2 ^ 63) result }
{
    i128::from(x) * i128::from(w as i64)
}

/// The same, where 64 bits hold it.
pub(crate) fn near_scaled(x: i64, w: i64) -> i64
    requires x_small { InRange x }
    requires w_small { IsWithin (2 ^ 21) w }
    ensures { result ≡ x *ℤ w }
{
    x * w
}

/// The difference of two numbers.
pub(crate) fn offset(a: i128, b: i128) -> i128
    requires a_small { IsWithin (2 ^ 63) a }
    requires b_small { IsWithin (2 ^ 63) b }
    ensures value { result ≡ a -ℤ b }
    ensures small { IsWithin (2 ^ 64) result }
{
    a - b
}

/// The sum of two numbers.
pub(crate) fn sum(a: i128, b: i128) -> i128
    requires a_small { IsWithin (2 ^ 64) a }
    requires b_small { IsWithin (2 ^ 64) b }
    ensures { result ≡ a +ℤ b }
{
    a + b
}

/// The product of a coordinate and a denominator, which is known to have no sign.
pub(crate) fn product(a: i128, w: i128) -> i128
    requires a_small { IsWithin (2 ^ 63) a }
    requires w_low { pos 0 ≤ℤ w }
    requires w_small { IsWithin denominator_max w }
    ensures value { result ≡ a *ℤ w }
    ensures small { IsWithin (2 ^ 106) result }
{
    a * i128::from(w as u64)
}

/// The cross product of the vectors (a, b) and (c, d).
pub(crate) fn cross(a: i64, b: i64, c: i128, d: i128) -> i128
    requires a_small { IsWithin (2 ^ 21) a }
    requires b_small { IsWithin (2 ^ 21) b }
    requires c_small { IsWithin (2 ^ 64) c }
    requires d_small { IsWithin (2 ^ 64) d }
    ensures value { result ≡ a *ℤ d -ℤ b *ℤ c }
    ensures small { IsWithin (2 ^ 86) result }
{
    i128::from(a) * d - i128::from(b) * c
}

/// How far a coordinate over the denominator w lies after a whole one, times w, where w leaves room for it.
pub(crate) fn apart(a: i128, x: i64, w: i128) -> i64
    requires a_small { IsWithin (2 ^ 61) a }
    requires x_small { InRange x }
    requires w_small { IsWithin near_max w }
    ensures value { result ≡ a -ℤ x *ℤ w }
    ensures small { IsWithin (2 ^ 62) result }
{
    a as i64 - x * w as i64
}

/// The cross product of the vectors (a, b) and (c, d), each product by one multiplication.
pub(crate) fn near_cross(a: i64, b: i64, c: i64, d: i64) -> i128
    requires a_small { IsWithin (2 ^ 21) a }
    requires b_small { IsWithin (2 ^ 21) b }
    requires c_small { IsWithin (2 ^ 62) c }
    requires d_small { IsWithin (2 ^ 62) d }
    ensures { result ≡ a *ℤ d -ℤ b *ℤ c }
{
    i128::from(a) * i128::from(d) - i128::from(b) * i128::from(c)
}

/// The sum of two products.
pub(crate) fn sum_of_products(a: i128, v: i128, b: i128, w: i128) -> i128
    requires a_small { IsWithin (2 ^ 78) a }
    requires v_small { IsWithin denominator_max v }
    requires b_small { IsWithin (2 ^ 78) b }
    requires w_small { IsWithin denominator_max w }
    ensures value { result ≡ (a *ℤ v) +ℤ (b *ℤ w) }
    ensures small { IsWithin (2 ^ 122) result }
{
    a * v + b * w
}

/// A number divided by 256, and what is left, with its sign.
pub(crate) fn by_256(a: i128) -> (i128, i128)
    requires { IsWithin (2 ^ 122) a }
    ensures value { (pos 256 *ℤ result.0) +ℤ result.1 ≡ a }
    ensures quotient { (n : ℕ) → IsWithin (256 * n) a → IsWithin n result.0 }
    ensures rest { IsWithin 255 result.1 }
{
    (a / 256, a % 256)
}

/// The cross product of the ways (a, b) and (c, d) between whole points.
pub fn whole_cross(a: i64, b: i64, c: i64, d: i64) -> i64
    requires a_small { IsWithin (2 ^ 21) a }
    requires b_small { IsWithin (2 ^ 21) b }
    requires c_small { IsWithin (2 ^ 21) c }
    requires d_small { IsWithin (2 ^ 21) d }
    ensures value { result ≡ a *ℤ d -ℤ b *ℤ c }
    ensures small { IsWithin denominator_max result }
{
    a * d - b * c
}
