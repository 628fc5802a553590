//! Pieces of the boundary.
ghost use Rattle.std.specs.Prelude.{◌≡◌};
ghost use Rattle.overlay_terms.specs.TileLaws.{is_pair_below};
ghost use Rattle.exact_point.specs.Place.{place};
ghost use Rattle.exact_point.specs.NamedPiece.{ends_of};
ghost use Rattle.exact_point.specs.PointName.{HasPlace};
ghost use Rattle.crossing_sweep.specs.Crossed.{IsRowSpan};
ghost use Rattle.crossing_sweep.specs.NodeNames.{name_at, named_ends, AreNumbered};

use crate::ends::{is_name_in, name_cmp};
use crossing_sweep::{NodeName, Row, name_of};
use exact_point::side::side;
use exact_point::{HPoint, PointName, x_cmp};
use plane_base::{Column, Seg};
use std::marker::Model;

/// A piece of the boundary: a stretch of its support between two places, the left one first.
#[derive(Debug, Drop)]
pub struct Piece {
    support: Seg,
    from: PointName,
    to: PointName,
}

impl Model for Piece {
    ghost use Rattle.exact_point.specs.NamedPiece.{NamedPiece};
    ghost use Rattle.exact_point.specs.NameCode.{piece_code};

    ghost Value = { NamedPiece };

    ghost coded = { piece_code };

    ghost use Rattle.tile_build.specs.Piece.{IsBetween};

    ghost view = { λ p. record { support = p.support; from = p.from; to = p.to } };

    ghost invariant = { λ p. IsBetween p.support p.from p.to };
}

impl Piece {
    ghost use Rattle.std.specs.Ordering.{is_lt};
    ghost use Rattle.overlay_terms.specs.Column.{is_in_column};
    ghost use Rattle.overlay_terms.specs.Tiles.{pair_cmp};
    ghost use Rattle.tile_build.specs.Piece.{IsBetween};
    ghost use Rattle.tile_laws.specs.SameTile.{same_pair, IsPositivePair};

    /// The stretch of a segment between two named places, where both lie on the segment and the
    /// first is left of the second: `are_ends` is the test.
    pub fn between(support: Seg, from: PointName, to: PointName) -> Piece
        requires { IsBetween support from to }
        ensures { result ≡ record { support = support; from = from; to = to } }
    {
        Piece { support, from, to }
    }

    /// The segment that the piece is a stretch of.
    pub fn support(&self) -> Seg
        ensures { result ≡ self.now.support }
    {
        self.support
    }

    /// The name of its left end.
    pub fn from(&self) -> PointName
        ensures { result ≡ self.now.from }
    {
        self.from
    }

    /// The name of its right end.
    pub fn to(&self) -> PointName
        ensures { result ≡ self.now.to }
    {
        self.to
    }

    /// The names of its ends, the left one first. Both have places.
    pub fn names(&self) -> (&PointName, &PointName)
        ensures left { result.0.now ≡ self.now.from }
        ensures right { result.1.now ≡ self.now.to }
        ensures left_stands { HasPlace result.0.now }
        ensures right_stands { HasPlace result.1.now }
    {
        (&self.from, &self.to)
    }

    /// The places of its ends.
    pub fn ends(&self) -> (HPoint, HPoint)
        ensures places { (place result.0, place result.1) ≡ ends_of self.now }
        ensures between { IsBetween self.now.support self.now.from self.now.to }
    {
        (self.from.known_point(), self.to.known_point())
    }

    /// The row of a pass, of which these names are those of its ends, as a piece of the boundary.
    pub(crate) fn of_row(names: &[NodeName], row: &Row) -> Piece
        requires span { IsRowSpan names.now row.now }
        requires numbered { AreNumbered names.now }
        ensures value { result ≡ record {
          support = row.now.support;
          from = name_at names.now row.now.first;
          to = name_at names.now row.now.last;
        } }
        ensures ends { ends_of result ≡ named_ends names.now row.now }
    {
        Piece {
            support: row.support,
            from: name_of(names, row.first),
            to: name_of(names, row.last),
        }
    }

    /// Whether the piece begins in a column.
    pub fn begins_in(&self, column: Column) -> bool
        ensures { result ≡ is_in_column column (ends_of self.now).0 }
    {
        is_name_in(column, &self.from)
    }

    /// Whether the piece comes before another: by the left end, then by the right end.
    pub fn is_before(&self, other: &Piece) -> bool
        ensures { result ≡ is_lt (pair_cmp (ends_of self.now) (ends_of other.now)) }
    {
        let from = name_cmp(&self.from, &other.from);
        if from.is_ne() {
            return from.is_lt();
        }
        name_cmp(&self.to, &other.to).is_lt()
    }

    /// Whether both ends are at the places of those of another piece, whatever their names.
    pub(crate) fn is_same(&self, other: &Piece) -> bool
        ensures value { result ≡ same_pair (ends_of self.now) (ends_of other.now) }
        // Both ends have places by the type.
        ensures positive { IsPositivePair (ends_of self.now) }
    {
        let from = self.from.known_point() == other.from.known_point();
        let to = self.to.known_point() == other.to.known_point();
        from && to
    }

    /// An equal piece.
    pub(crate) fn copy(&self) -> Piece
        ensures { result ≡ self.now }
    {
        Piece {
            support: self.support,
            from: self.from,
            to: self.to,
        }
    }

    /// Whether the piece is below a point. Its right end does not count.
    pub(crate) fn is_below(&self, query: &HPoint) -> bool
        ensures { result ≡ is_pair_below (place query.now) (ends_of self.now) }
    {
        if x_cmp(&self.from.known_point(), query).is_gt() {
            return false;
        }
        if x_cmp(query, &self.to.known_point()).is_ge() {
            return false;
        }
        side(&self.support, query).is_gt()
    }
}
