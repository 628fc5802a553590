//! The doubles nearest to fractions.
ghost use Rattle.std.specs.Prelude.{◌≡◌, ℕ, pos, ◌+◌, ◌*◌, ◌^◌, ◌<◌, ◌≤◌, ◌<ℤ◌, ◌≤ℤ◌, unsigned_abs};
ghost use Rattle.boundary_outlines.specs.Nearest.{IsFitted, IsNearDouble, IsNearPositive, IsNearWhole, IsScaled};

/// 2^53: the whole numbers of as many bits as a double keeps end here.
const WHOLE: u64 = 9007199254740992;
/// 2^52: they begin here.
const LEAST: u64 = 4503599627370496;
/// The exponent of a whole number of 53 bits.
const EXPONENT: u64 = 1075;
/// 2^43: the greatest denominator.
const WIDE: u128 = 8796093022208;

/// A fraction as a whole number over some power of 2, and what is left of it over w.
#[derive(Clone, Copy, Debug)]
struct Scaled {
    whole: u64,
    rest: u64,
    doublings: u64,
}

/// The same after so many doublings, by 2 to the power of as many.
fn doubled(own: &Scaled, w: u64, doublings: u64, by: u64) -> Scaled
    requires is { by ≡ 2 ^ doublings }
    requires few { doublings ≤ 20 }
    requires wide { w ≤ 2 ^ 43 }
    requires proper { own.now.rest < w }
    requires short { own.now.whole * by < 2 ^ 53 }
    requires count { own.now.doublings ≤ 1000 }
    ensures still { (size : ℕ) → IsScaled size w own.now → IsScaled size w result }
    ensures more { own.now.whole * 2 ^ doublings ≤ result.whole }
    ensures doublings { result.doublings ≡ own.now.doublings + doublings }
    ensures proper { result.rest < w }
    ensures short { result.whole < 2 ^ 53 }
{
    let wide = own.rest * by;
    let more = wide / w;
    let times = own.whole * by;
    let whole = times + more;
    let rest = wide % w;
    Scaled {
        whole,
        rest,
        doublings: own.doublings + doublings,
    }
}

/// The same after so many doublings, where it keeps to 53 bits.
fn fitted(own: Scaled, w: u64, doublings: u64, by: u64) -> Scaled
    requires is { by ≡ 2 ^ doublings }
    requires few { doublings ≤ 20 }
    requires wide { w ≤ 2 ^ 43 }
    requires proper { own.rest < w }
    requires short { own.whole < 2 ^ 53 }
    requires count { own.doublings ≤ 1000 }
    ensures is { IsFitted w doublings own result }
    ensures proper { result.rest < w }
    ensures short { result.whole < 2 ^ 53 }
    ensures few { result.doublings ≤ own.doublings + doublings }
{
    if own.whole.saturating_mul(by) < WHOLE {
        doubled(&own, w, doublings, by)
    } else {
        own
    }
}

/// The same with 53 bits.
fn widest(whole: u64, rest: u64, w: u64) -> Scaled
    requires wide { w ≤ 2 ^ 43 }
    requires proper { rest < w }
    requires short { whole < 2 ^ 53 }
    requires some { 1 ≤ whole * w + rest }
    ensures is { IsScaled (whole * w + rest) w result }
    ensures least { 2 ^ 52 ≤ result.whole }
    ensures few { result.doublings ≤ 131 }
{
    let mut own = Scaled {
        whole,
        rest,
        doublings: 0,
    };
    for _ in 0..5_usize {
        own = fitted(own, w, 20, 1048576);
    }
    let four = fitted(own, w, 16, 65536);
    let three = fitted(four, w, 8, 256);
    let two = fitted(three, w, 4, 16);
    let one = fitted(two, w, 2, 4);
    fitted(one, w, 1, 2)
}

/// The whole number nearest to what is left over; the even one of two that are as near.
fn rounded(own: &Scaled, w: u64) -> u64
    requires wide { w ≤ 2 ^ 43 }
    requires proper { own.now.rest < w }
    requires short { own.now.whole < 2 ^ 53 }
    ensures least { own.now.whole ≤ result }
    ensures most { result ≤ own.now.whole + 1 }
    ensures near { (size : ℕ) → IsScaled size w own.now → IsNearWhole size w own.now.doublings result }
{
    let twice = own.rest * 2;
    if twice < w {
        return own.whole;
    }
    if twice > w {
        return own.whole + 1;
    }
    let odd = own.whole % 2;
    own.whole + odd
}

/// The bits of the double nearest to a positive number.
fn positive(whole: u64, rest: u64, w: u64) -> u64
    requires wide { w ≤ 2 ^ 43 }
    requires proper { rest < w }
    requires short { whole < 2 ^ 53 }
    requires some { 1 ≤ whole * w + rest }
    ensures is { IsNearPositive (whole * w + rest) w result }
    ensures small { result < 2 ^ 63 }
{
    let own = widest(whole, rest, w);
    let kept = rounded(&own, w);
    let power = EXPONENT - own.doublings;
    let high = power * LEAST;
    let low = kept - LEAST;
    // A number that was rounded up to 2^53 carries over to the exponent.
    high + low
}

/// The bits of the double nearest to size / w, where both are in range.
fn near(size: u128, w: u128) -> u64
    ensures is { 1 ≤ size → 1 ≤ w → w ≤ 2 ^ 43 → size < 2 ^ 53 * w → IsNearPositive size w result }
    ensures none { size ≡ 0 → result ≡ 0 }
    ensures small { result < 2 ^ 63 }
{
    if size == 0 || w == 0 || w > WIDE {
        return 0;
    }
    let whole = size / w;
    if whole >= u128::from(WHOLE) {
        return 0;
    }
    let rest = size % w;
    positive(whole as u64, rest as u64, w as u64)
}

/// The bits of the double nearest to n / w; of two that are as near, of the even one. For |n / w| less than 2^53 and w
/// from 1 up to 2^43.
pub fn nearest(n: i128, w: i128) -> u64
    ensures near { pos 0 <ℤ w → w ≤ℤ pos (2 ^ 43) → unsigned_abs n < 2 ^ 53 * unsigned_abs w
        → IsNearDouble n (unsigned_abs w) result }
{
    let size = n.unsigned_abs();
    let by = w.unsigned_abs();
    let bits = near(size, by);
    if n < 0 {
        return 9223372036854775808 + bits;
    }
    bits
}
