//! Tiles.
ghost use Rattle.std.specs.Prelude.{◌≡◌, ◌%◌, ◌==◌, count_by, map, true, All, IfOk};
ghost use Rattle.overlay_terms.specs.TileLaws.{is_pair_below};
ghost use Rattle.exact_point.specs.Place.{place};
ghost use Rattle.exact_point.specs.NamedPiece.{ends_of};
ghost use Rattle.tile_laws.specs.SameTile.{same_ends, same_tile, HasPositiveEnds, IsPositivePair};
ghost use Rattle.tile_build.specs.Tile.{tile_of, named_pieces, answer_of};

use crate::piece::Piece;
use exact_point::{HPoint, QueryPoint};
use std::alloc::{AllocError, Global};

/// The pieces of the boundary that begin in a column, in order; or that they are too many.
#[derive(Debug, Drop)]
pub enum Tile {
    Pieces(Vec<Piece>),
    Oversize,
}

impl Tile {
    /// Whether an odd number of the pieces is below a point, where they are there.
    pub fn answer(&self, query: &QueryPoint) -> Option<bool>
        ensures { result ≡ answer_of (tile_of self.now) query.now }
    {
        match self {
            Tile::Pieces(pieces) => Some(is_odd_below(pieces, &query.point())),
            Tile::Oversize => None,
        }
    }

    /// Whether the tile is like another: the same pieces by the places of their ends, or both too
    /// many.
    pub fn is_same(&self, other: &Tile) -> bool
        ensures value { result ≡ same_tile (tile_of self.now) (tile_of other.now) }
        ensures positive { result ≡ true → HasPositiveEnds (tile_of self.now) }
    {
        match (self, other) {
            (Tile::Pieces(held), Tile::Pieces(built)) => are_same(held, built),
            (Tile::Oversize, Tile::Oversize) => true,
            _ => false,
        }
    }

    /// An equal tile in memory of its own, names and supports included.
    pub fn try_copy(&self, alloc: Global) -> Result<Tile, AllocError>
        ensures named { IfOk result (λ copy. named_pieces copy ≡ named_pieces self.now) }
        ensures same { IfOk result (λ copy. tile_of copy ≡ tile_of self.now) }
    {
        match self {
            Tile::Pieces(pieces) => Ok(Tile::Pieces(copied(alloc, pieces)?)),
            Tile::Oversize => Ok(Tile::Oversize),
        }
    }
}

/// Whether an odd number of pieces is below a point.
fn is_odd_below(pieces: &[Piece], query: &HPoint) -> bool
    ensures { result ≡ (count_by (is_pair_below (place query.now)) (map ends_of pieces.now) % 2 == 1) }
{
    let mut odd = false;
    for piece in pieces {
        if piece.is_below(query) {
            odd = !odd;
        }
    }
    odd
}

/// Whether there are as many pieces, and each has the places of the one at its place.
fn are_same(held: &[Piece], built: &[Piece]) -> bool
    ensures value { result ≡ same_ends (map ends_of held.now) (map ends_of built.now) }
    ensures positive { result ≡ true → All IsPositivePair (map ends_of held.now) }
{
    if held.len() != built.len() {
        return false;
    }
    for i in 0..held.len() {
        if !held[i].is_same(&built[i]) {
            return false;
        }
    }
    true
}

/// Equal pieces in memory of their own.
fn copied(alloc: Global, pieces: &[Piece]) -> Result<Vec<Piece>, AllocError>
    ensures { IfOk result (λ copies. copies.items ≡ pieces.now) }
{
    let mut copies = Vec::with_capacity(alloc, pieces.len())?;
    for piece in pieces {
        copies.push(piece.copy())?;
    }
    Ok(copies)
}
