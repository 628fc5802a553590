//! Whole numbers within the range of coordinates.
ghost use Rattle.std.specs.Prelude.{◌≡◌, ◌↔◌, ℤ, IsSome, IfSome};
ghost use Rattle.overlay_terms.specs.Plane.{InRange};

use plane_base::COORD_MAX;
use std::marker::Model;

/// A whole number within the range of coordinates.
#[derive(Clone, Copy, Debug, PartialEq, Eq)]
pub struct Coordinate {
    value: i64,
}

impl Model for Coordinate {
    ghost Value = { ℤ };

    ghost view = { λ c. c.value };

    ghost invariant = { λ c. InRange c.value };

    ghost inverse = { λ z. record { value = z } };
}

impl Coordinate {
    pub const ZERO: Coordinate = Coordinate { value: 0 };

    /// The coordinate of this value, if it is within the range.
    pub fn new(value: i64) -> Option<Coordinate>
        ensures in_range { IsSome result ↔ InRange value }
        ensures value { IfSome result (λ c. c ≡ value) }
    {
        if value < -COORD_MAX || value > COORD_MAX {
            return None;
        }
        Some(Coordinate { value })
    }

    pub fn value(self) -> i64
        ensures value { result ≡ self }
        ensures in_range { InRange result }
    {
        self.value
    }
}
