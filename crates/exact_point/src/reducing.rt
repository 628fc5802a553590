//! Points in lowest terms.
ghost use Prim.Native.Nat.{◌∣◌};
ghost use Rattle.std.specs.Prelude.{◌≡◌, ℕ, ◌^◌, ◌%◌, ◌<◌, ◌≤◌, ◌*ℤ◌, ◌<ℤ◌, ◌≤ℤ◌, pos, unsigned_abs, IsTrue};
ghost use Rattle.std.specs.Int.{IsGcd};
ghost use Rattle.overlay_terms.specs.Plane.{InRange, same_place};
ghost use Rattle.exact_point.specs.Place.{place};
ghost use Rattle.exact_point.specs.CutOver.{cut_over};
ghost use Rattle.exact_point.specs.Reduced.{IsDivisorOf, IsLowest, LowestTermsAreOne};

use crate::arithmetic::near_scaled;
use crate::crossing::near_cut;
use crate::near_point::NearPoint;
use crate::point::HPoint;
use plane_base::Seg;

/// The same place in lowest terms: no number but 1 divides x, y and w.
pub fn reduced(p: &HPoint) -> HPoint
    ensures same { IsTrue (same_place (place result) (place p.now)) }
    ensures lowest { IsLowest (place result) }
{
    if p.w == 1 {
        return *p;
    }
    let common = divisor(p);
    HPoint {
        x: divided(p.x, common),
        y: divided(p.y, common),
        w: divided(p.w, common),
    }
}

/// Where the vertical line over a whole x cuts a segment, in lowest terms. Only y and the denominator are divided:
/// their divisors divide the third number, which is x times the denominator.
pub fn reduced_cut(seg: &Seg, x: i64) -> NearPoint
    requires in_range { InRange x }
    requires after_left { seg.now.left.x <ℤ x }
    requires before_right { x <ℤ seg.now.right.x }
    ensures same { IsTrue (same_place (place result) (cut_over seg.now x)) }
    ensures lowest { IsLowest (place result) }
{
    let (w, y) = near_cut(seg, x);
    let common = common_divisor(w, y);
    let low = near_divided(w, common);
    NearPoint {
        x: near_scaled(x, low),
        y: near_divided(y, common),
        w: low,
    }
}

/// The greatest common divisor of a denominator and a number.
fn common_divisor(w: i64, y: i64) -> u32
    requires w_low { pos 1 ≤ℤ w }
    requires narrow { unsigned_abs w < 2 ^ 32 }
    ensures value { IsGcd (unsigned_abs w) (unsigned_abs y) result }
    ensures positive { 0 < result }
{
    let size = w.unsigned_abs();
    let rest = y.unsigned_abs() % size;
    gcd(size, rest) as u32
}

/// A place has one form in lowest terms.
pub fn lowest_terms_are_one()
    ensures { LowestTermsAreOne }
{}

/// The greatest common divisor of x, y and w. That of w with what is left of x is small mostly, and
/// a divisor of it is found at once.
fn divisor(p: &HPoint) -> u64
    ensures value { IsDivisorOf (place p.now) result }
    ensures positive { 0 < result }
{
    let w = p.w.unsigned_abs() as u64;
    let of_x = gcd(w, rest_of(p.x, w));
    gcd(of_x, rest_of(p.y, of_x))
}

/// What is left of the size of a number that is divided.
fn rest_of(a: i128, divisor: u64) -> u64
    requires positive { 0 < divisor }
    requires small { unsigned_abs a ≤ 2 ^ 63 }
    ensures { result ≡ unsigned_abs a % divisor }
{
    a.unsigned_abs() as u64 % divisor
}

/// The greatest common divisor. The factors 2 that both have are put back at the end.
fn gcd(a: u64, b: u64) -> u64
    requires positive { 0 < a }
    ensures { IsGcd a b result }
{
    if b == 0 {
        return a;
    }
    let (of_a, of_b) = (a.trailing_zeros(), b.trailing_zeros());
    odd_gcd(a >> of_a, b >> of_b) << of_a.min(of_b)
}

/// The greatest common divisor of two odd numbers, by Stein's algorithm: shifts and differences where Euclid's
/// divides. Beside an odd number the factors 2 of a difference do not count. (Stein, 1967; Knuth, The Art of Computer
/// Programming, volume 2, 4.5.2, algorithm B.)
fn odd_gcd(a: u64, b: u64) -> u64
    requires odd { a % 2 ≡ 1 }
    requires other_odd { b % 2 ≡ 1 }
    ensures { IsGcd a b result }
{
    let mut x = a;
    let mut y = b;
    while x != y {
        let apart = x.abs_diff(y);
        x = x.min(y);
        y = apart >> apart.trailing_zeros();
    }
    x
}

/// A number divided by one of its divisors.
fn divided(a: i128, divisor: u64) -> i128
    requires positive { 0 < divisor }
    requires divides { divisor ∣ unsigned_abs a }
    requires small { unsigned_abs a ≤ 2 ^ 63 }
    ensures { result *ℤ pos divisor ≡ a }
{
    let size = (a.unsigned_abs() as u64 / divisor) as i128;
    if a < 0 { -size } else { size }
}

/// The same in 64 bits.
fn near_divided(a: i64, divisor: u32) -> i64
    requires positive { 0 < divisor }
    requires divides { divisor ∣ unsigned_abs a }
    ensures { result *ℤ pos divisor ≡ a }
{
    a / i64::from(divisor)
}
