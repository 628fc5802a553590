//! Strips of neighbouring columns.
ghost use Rattle.std.specs.Prelude.{◌≡◌, ◌+◌, ◌≤◌};
ghost use Rattle.overlay_terms.specs.Column.{border};
ghost use Rattle.overlay_terms.specs.Plane.{InRange};
ghost use Rattle.exact_point.specs.Place.{place};
ghost use Rattle.crossing_sweep.specs.StripInput.{is_in_strip, is_in_closed_strip};

use crate::rank::{first_rank, is_ranked_within};
use crate::ranked_place::RankedPlace;
use arrange::is_up_to;
use exact_point::{HPoint, border_side};
use plane_base::Column;
use std::marker::Model;

/// Neighbouring columns, from the first to the last one, both included.
#[derive(Clone, Copy, Debug)]
pub struct Strip {
    first: Column,
    last: Column,
}

impl Model for Strip {
    ghost use Rattle.std.specs.Prelude.{◌≤◌};
    ghost use Rattle.crossing_sweep.specs.StripInput.{Span};

    ghost Value = { Span };

    ghost view = { λ s. record { first = s.first; last = s.last } };

    ghost invariant = { λ s. s.first ≤ s.last };

    ghost inverse = { λ s. record { first = s.first; last = s.last } };
}

impl Strip {
    /// The columns from one to another, which is not left of it.
    pub fn new(first: Column, last: Column) -> Strip
        requires { first ≤ last }
        ensures { result ≡ record { first = first; last = last } }
    {
        Strip { first, last }
    }

    /// The first column.
    pub fn first(self) -> Column
        ensures value { result ≡ self.first }
        ensures in_order { self.first ≤ self.last }
    {
        self.first
    }

    /// The last column.
    pub fn last(self) -> Column
        ensures value { result ≡ self.last }
        ensures in_order { self.first ≤ self.last }
    {
        self.last
    }

    /// The least x of the strip.
    pub(crate) fn border(self) -> i64
        ensures value { result ≡ border self.first }
        ensures in_range { InRange result }
    {
        self.first.border()
    }

    /// The x where the strip ends, which is no longer in it.
    pub(crate) fn end(self) -> i64
        ensures { result ≡ border (self.last + 1) }
    {
        self.last.end()
    }

    /// Whether a node lies in the strip: at its left border or right of it, and left of its right border.
    pub(crate) fn holds(self, node: &RankedPlace) -> bool
        ensures { result ≡ is_in_strip self (place node.now.at) }
    {
        is_ranked_within(node.rank, first_rank(self.border()), first_rank(self.end()))
    }

    /// Whether a point lies from the strip's left border to its right border.
    pub(crate) fn holds_closed(self, p: &HPoint) -> bool
        ensures { result ≡ is_in_closed_strip self (place p.now) }
    {
        let from_left = border_side(self.first(), p);
        let to_right = is_up_to(self.last(), p);
        // Eager, so that one equation says all: both sides are known by then.
        from_left.is_ge() & to_right
    }
}
