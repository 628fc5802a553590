//! The columns of the plane. How many there are and how wide they are is said here alone.
ghost use Rattle.std.specs.Prelude.{◌≡◌, ◌≤◌, ◌<◌, ◌*◌, ◌≤ℤ◌, ◌*ℤ◌, ◌<ℤ◌, ℕ, ◌+◌, ◌↔◌};
ghost use Rattle.std.specs.Prelude.{neg_ℤ, pos, SomeIff, IfSome, IsSome};
ghost use Rattle.overlay_terms.specs.Column.{border, column_count, IsInColumn, IsInPlane};
ghost use Rattle.overlay_terms.specs.Plane.{denominator_max, InRange};

use crate::point::COORD_MAX;
use std::marker::Model;

/// How many columns there are.
pub const COLUMN_COUNT: u8 = 33;

/// How wide a column is.
pub const COLUMN_WIDTH: i64 = 65536;

/// A column, by its number from 0 on.
#[derive(Clone, Copy, Debug, PartialEq, Eq, PartialOrd, Ord)]
pub struct Column {
    number: u8,
}

impl Model for Column {
    ghost Value = { ℕ };

    ghost view = { λ c. c.number };

    ghost invariant = { λ c. c.number < column_count };

    ghost inverse = { λ n. record { number = n } };
}

impl Column {
    /// The column with this number, if there is one.
    pub fn new(number: u64) -> Option<Column>
        ensures { SomeIff result (number < column_count) number }
    {
        if number >= u64::from(COLUMN_COUNT) {
            return None;
        }
        Some(Column {
            number: number as u8,
        })
    }

    pub fn number(self) -> u8
        ensures value { result ≡ self }
        ensures small { result < column_count }
    {
        self.number
    }

    /// The least x of the column.
    pub fn border(self) -> i64
        ensures value { result ≡ border self }
        ensures in_range { InRange result }
    {
        i64::from(self.number) * COLUMN_WIDTH - COORD_MAX
    }

    /// The x where the column ends, which is no longer in it.
    pub fn end(self) -> i64
        ensures { result ≡ border (self + 1) }
    {
        self.border() + COLUMN_WIDTH
    }
}

/// The column of x / w, unless it lies outside the coordinates.
pub fn column_of(x: i128, w: i128) -> Option<Column>
    requires w_low { pos 1 ≤ℤ w }
    requires w_high { w ≤ℤ pos denominator_max }
    ensures known { IsSome result ↔ IsInPlane x w }
    ensures column { IfSome result (λ k. IsInColumn k x w) }
{
    let limit = w * COORD_MAX as i128;
    if x < -limit || x > limit {
        return None;
    }
    let from_left = (x + limit) as u128;
    let width = (w * COLUMN_WIDTH as i128) as u128;
    let number = column_number(from_left, width);
    Some(Column { number })
}

/// How many whole widths lie left of a place, fewer than there are columns.
fn column_number(from_left: u128, width: u128) -> u8
    requires some_width { 0 < width }
    requires not_far { from_left < column_count * width }
    ensures small { result < column_count }
    ensures low { result * width ≤ from_left }
    ensures high { from_left < (result + 1) * width }
{
    (from_left / width) as u8
}
