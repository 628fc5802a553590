//! A place as text.
ghost use Rattle.std.specs.Prelude.{◌≡◌, ℕ, ◌+◌, ◌^◌, ◌≤◌, List, ◌++◌, drop, length, unsigned_abs};
ghost use Rattle.std.specs.Fmt.{signed_decimal};
ghost use Rattle.exact_point.specs.Place.{place};
ghost use Rattle.version_core.specs.Edges.{point_text};

use exact_point::{HPoint, NearPoint};
use itoa::write_digits;
use std::marker::Model;

/// How many bytes there are for a text: its three numbers have a sign and 19 digits at most, with a space between them.
pub(crate) const TEXT_MAX: usize = 64;

/// A text that ends with the last byte, as it is put down from its end to its start.
#[derive(Debug, Drop)]
pub(crate) struct PlaceText {
    bytes: [u8; TEXT_MAX],
    start: usize,
}

impl Model for PlaceText {
    ghost Value = { List ℕ };

    ghost view = { λ t. drop t.start t.bytes };

    ghost invariant = { λ t. t.start ≤ 64 };
}

impl PlaceText {
    /// The text that starts at a place among so many bytes.
    pub(crate) fn of(bytes: &[u8], start: usize) -> PlaceText
        requires whole { length bytes.now ≡ 64 }
        requires within { start ≤ 64 }
        ensures { result ≡ drop start bytes.now }
    {
        let mut copied = [0; TEXT_MAX];
        copied.copy_from_slice(bytes);
        PlaceText {
            bytes: copied,
            start,
        }
    }

    /// All bytes, and where among them the text starts.
    pub(crate) fn parts(&self) -> (&[u8; TEXT_MAX], usize)
        ensures text { drop result.1 result.0.now ≡ self.now }
        ensures within { result.1 ≤ TEXT_MAX }
    {
        (&self.bytes, self.start)
    }
}

/// Puts a place down as `x y w` before a place among the bytes, and returns where it starts.
pub(crate) fn put_place(bytes: &mut [u8], end: usize, point: &HPoint) -> usize
    requires room { 64 ≤ end }
    requires within { end ≤ length bytes.old }
    ensures before { result ≤ end }
    ensures short { end ≤ result + 64 }
    ensures written { drop result bytes.new ≡ point_text (place point.now) ++ drop end bytes.old }
{
    let w = put_wide(bytes, end, point.w);
    bytes[w - 1] = b' ';
    let y = put_wide(bytes, w - 1, point.y);
    bytes[y - 1] = b' ';
    put_wide(bytes, y - 1, point.x)
}

/// The same of a place of which 64 bits hold the numbers.
pub(crate) fn put_near(bytes: &mut [u8], end: usize, point: NearPoint) -> usize
    requires room { 64 ≤ end }
    requires within { end ≤ length bytes.old }
    ensures before { result ≤ end }
    ensures short { end ≤ result + 64 }
    ensures written { drop result bytes.new ≡ point_text (place point) ++ drop end bytes.old }
{
    let w = put_number(bytes, end, point.w());
    bytes[w - 1] = b' ';
    let y = put_number(bytes, w - 1, point.y());
    bytes[y - 1] = b' ';
    put_number(bytes, y - 1, point.x())
}

/// Puts a number down before a place among the bytes, and returns where it starts.
pub(crate) fn put_number(bytes: &mut [u8], end: usize, n: i64) -> usize
    requires room { 20 ≤ end }
    requires within { end ≤ length bytes.old }
    ensures before { result ≤ end }
    ensures short { end ≤ result + 20 }
    ensures written { drop result bytes.new ≡ signed_decimal n ++ drop end bytes.old }
{
    let start = write_digits(n.unsigned_abs(), bytes, end);
    if n >= 0 {
        return start;
    }
    bytes[start - 1] = b'-';
    start - 1
}

/// The same of one of 128 bits that is as small, or 2^63.
fn put_wide(bytes: &mut [u8], end: usize, n: i128) -> usize
    requires small { unsigned_abs n ≤ 2 ^ 63 }
    requires room { 20 ≤ end }
    requires within { end ≤ length bytes.old }
    ensures before { result ≤ end }
    ensures short { end ≤ result + 20 }
    ensures written { drop result bytes.new ≡ signed_decimal n ++ drop end bytes.old }
{
    let start = write_digits(n.unsigned_abs() as u64, bytes, end);
    if n >= 0 {
        return start;
    }
    bytes[start - 1] = b'-';
    start - 1
}
