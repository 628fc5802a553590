//! Numbers as texts write them.
ghost use Rattle.std.specs.Prelude.{◌≡◌, ◌||◌, ◌==◌, ℕ, min, count_by, take, IfSome};
ghost use Rattle.std.specs.List.{list_all, list_any, prefix_len};
ghost use Rattle.std.specs.Char.{is_ascii_digit};
ghost use Rattle.overlay_terms.specs.Bytes.{begins, digits_value};
ghost use Rattle.wkt_form.specs.Number.{is_number, is_point, unsigned, with_sign};
ghost use Rattle.wkt_form.specs.Token.{is_run_byte};
ghost use Rattle.wkt_form.specs.Symbol.{number_of, whole_worth, BeginsWithNumber};

use crate::coordinate::Coordinate;

/// More than any coordinate, and the value of each number that is at least this.
const LIMIT: u32 = 2097152;

/// What a number is worth as a coordinate.
#[derive(Clone, Copy, Debug, PartialEq, Eq)]
pub enum Number {
    Whole(Coordinate),
    /// A digit after its point is not 0.
    Fraction,
    OutOfRange,
}

/// What the run of digits, signs and points is worth, if it is a number: a coordinate, a fraction, or out of range.
pub fn number_of(run: &[u8]) -> Option<Number>
    ensures { result ≡ number_of run.now }
{
    if !is_number(run) {
        return None;
    }
    let digits = unsigned(run);
    let (size, count) = leading_digits(digits);
    // What follows the point, if there is one.
    let fraction = &digits[digits.len().min(count + 1)..];
    if !are_zeros(fraction) {
        return Some(Number::Fraction);
    }
    Some(whole_worth(run, size))
}

/// The number that bytes begin with, and how many of them it takes, where it has a sign or none and then digits alone:
/// its digits are gone over once.
#[inline(always)]
pub fn plain_number(bytes: &[u8]) -> Option<(Number, usize)>
    ensures { IfSome result (λ found. BeginsWithNumber bytes.now found.0 found.1) }
{
    let digits = unsigned(bytes);
    let (size, count) = leading_digits(digits);
    if count == 0 || begins_run(&digits[count..]) {
        return None;
    }
    Some((whole_worth(bytes, size), bytes.len() - digits.len() + count))
}

/// What a whole number is worth that begins as these bytes do, by what its digits are worth up to the limit.
fn whole_worth(bytes: &[u8], size: u32) -> Number
    ensures { (n : ℕ) → size ≡ min 2097152 n → result ≡ whole_worth (with_sign bytes.now n) }
{
    let value = i64::from(size);
    let signed = if matches!(bytes, [b'-', ..]) {
        -value
    } else {
        value
    };
    Coordinate::new(signed).map_or(Number::OutOfRange, Number::Whole)
}

/// What the digits that bytes begin with are worth, or the limit where that is more, and how many they are.
#[inline(always)]
fn leading_digits(bytes: &[u8]) -> (u32, usize)
    ensures size { result.0 ≡ min 2097152 (digits_value (take result.1 bytes.now)) }
    ensures count { result.1 ≡ prefix_len is_ascii_digit bytes.now }
{
    let mut size = 0;
    let mut count = 0;
    for byte in bytes {
        if !byte.is_ascii_digit() {
            return (size, count);
        }
        size = LIMIT.min(10 * size + u32::from(byte.saturating_sub(b'0')));
        count += 1;
    }
    (size, count)
}

/// Whether a byte that belongs to a run is the first of these.
fn begins_run(bytes: &[u8]) -> bool
    ensures { result ≡ begins is_run_byte bytes.now }
{
    match bytes {
        [first, ..] => is_run_byte(*first),
        [] => false,
    }
}

/// Whether a byte is a digit, a sign or a point.
pub fn is_run_byte(byte: u8) -> bool
    ensures { result ≡ is_run_byte byte }
{
    byte.is_ascii_digit() || matches!(byte, b'+' | b'-' | b'.')
}

/// What follows the sign, if there is one.
fn unsigned(run: &[u8]) -> &[u8]
    ensures { result.now ≡ unsigned run.now }
{
    match run {
        [b'+' | b'-', digits @ ..] => digits,
        _ => run,
    }
}

/// Whether there are only digits and points.
fn are_digits_and_points(bytes: &[u8]) -> bool
    ensures { result ≡ list_all (λ b. is_ascii_digit b || is_point b) bytes.now }
{
    bytes.iter().all(|b| b.is_ascii_digit() || *b == b'.')
}

fn point_count(bytes: &[u8]) -> usize
    ensures { result ≡ count_by is_point bytes.now }
{
    bytes.iter().filter(|b| **b == b'.').count()
}

fn has_digit(bytes: &[u8]) -> bool
    ensures { result ≡ list_any is_ascii_digit bytes.now }
{
    bytes.iter().any(|b| b.is_ascii_digit())
}

fn is_number(run: &[u8]) -> bool
    ensures { result ≡ is_number run.now }
{
    let digits = unsigned(run);
    are_digits_and_points(digits) && point_count(digits) <= 1 && has_digit(digits)
}

fn are_zeros(digits: &[u8]) -> bool
    ensures { result ≡ list_all (λ b. b == 48) digits.now }
{
    digits.iter().all(|b| *b == b'0')
}
