//! The line of a piece as text.
ghost use Rattle.std.specs.Prelude.{◌≡◌, ℕ, ◌+◌, ◌^◌, ◌<◌, ◌≤◌, List, [], ◌∷◌, ◌++◌, drop, length, unsigned_abs};
ghost use Rattle.std.specs.Fmt.{signed_decimal};
ghost use Rattle.overlay_terms.specs.Plane.{whole};
ghost use Rattle.exact_point.specs.Place.{place};
ghost use Rattle.version_core.specs.Edges.{point_text};

use crate::place_text::{PlaceText, TEXT_MAX, put_near, put_number, put_place};
use exact_point::{HPoint, NearPoint};
use plane_base::Pt;
use std::marker::Model;

/// How many bytes there are for a line: two texts of places, a space and a line feed, and more, as a text is put down
/// with all of its bytes.
const LINE_MAX: usize = 192;

/// A text that ends with the last byte, as it is put down from its end to its start.
#[derive(Debug, Drop)]
pub(crate) struct LineText {
    bytes: [u8; LINE_MAX],
    start: usize,
}

impl Model for LineText {
    ghost Value = { List ℕ };

    ghost view = { λ t. drop t.start t.bytes };

    ghost invariant = { λ t. t.start ≤ 192 };
}

impl LineText {
    /// No text yet.
    pub(crate) fn new() -> LineText {
        LineText {
            bytes: [0; LINE_MAX],
            start: LINE_MAX,
        }
    }

    /// Takes the text away.
    pub(crate) fn clear(&mut self)
        ensures { self.new ≡ [] }
    {
        self.start = LINE_MAX;
    }

    /// Puts a byte before the text.
    pub(crate) fn put_byte(&mut self, byte: u8)
        requires { length self.old < 192 }
        ensures { self.new ≡ byte ∷ self.old }
    {
        self.start -= 1;
        self.bytes[self.start] = byte;
    }

    /// Puts the text of a place before the text, with the bytes before it: a copy of so
    /// many bytes as ever is the fastest.
    pub(crate) fn put_text(&mut self, text: &PlaceText)
        requires { length self.old ≤ 128 }
        ensures text { self.new ≡ text.now ++ self.old }
        ensures short { length self.new ≤ length self.old + 64 }
    {
        let (bytes, start) = text.parts();
        let from = self.start - TEXT_MAX;
        self.bytes[from..self.start].copy_from_slice(bytes);
        self.start = from + start;
    }

    /// Puts a place before the text, and gives the text of it alone.
    pub(crate) fn put_place(&mut self, point: &HPoint) -> PlaceText
        requires { length self.old ≤ 128 }
        ensures alone { result ≡ point_text (place point.now) }
        ensures text { self.new ≡ point_text (place point.now) ++ self.old }
        ensures short { length self.new ≤ length self.old + 64 }
    {
        let end = self.start;
        let from = end - TEXT_MAX;
        self.start = put_place(&mut self.bytes, end, point);
        PlaceText::of(&self.bytes[from..end], self.start - from)
    }

    /// Puts a place before the text.
    pub(crate) fn put_near(&mut self, point: NearPoint)
        requires { length self.old ≤ 128 }
        ensures text { self.new ≡ point_text (place point) ++ self.old }
        ensures short { length self.new ≤ length self.old + 64 }
    {
        self.start = put_near(&mut self.bytes, self.start, point);
    }

    /// Puts a whole point before the text. It is in lowest terms already.
    pub(crate) fn put_whole(&mut self, point: Pt)
        requires { length self.old ≤ 128 }
        ensures text { self.new ≡ point_text (whole point) ++ self.old }
        ensures short { length self.new ≤ length self.old + 64 }
    {
        self.put_byte(b'1');
        self.put_coordinate(point.y());
        self.put_coordinate(point.x());
    }

    /// Puts a coordinate before the text, and a space between them.
    fn put_coordinate(&mut self, n: i64)
        requires room { length self.old ≤ 160 }
        ensures text { self.new ≡ signed_decimal n ++ (32 ∷ self.old) }
        ensures short { length self.new ≤ length self.old + 21 }
    {
        self.put_byte(b' ');
        self.start = put_number(&mut self.bytes, self.start, n);
    }

    pub(crate) fn as_bytes(&self) -> &[u8]
        ensures { result.now ≡ self.now }
    {
        &self.bytes[self.start..]
    }
}
