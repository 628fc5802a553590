//! Finding the boundary pieces of a strip with their sides.
ghost use Rattle.std.specs.Prelude.{◌≡◌, map, All, IfOk};
ghost use Rattle.crossing_sweep.specs.Crossed.{IsRowSpan};
ghost use Rattle.crossing_sweep.specs.NodeNames.{AreNumbered};
ghost use Rattle.swept_area.specs.SweptLaws.{IsSegment};
ghost use Rattle.sided_pieces.specs.Sided.{named, sided_of, IsSidedTile};

use crate::tile::SidedTile;
use crossing_sweep::{Always, NodeName, PassInput, Row, cross_strip_while, name_of};
use std::alloc::{AllocError, Global};
use swept_area::SidedPiece;

/// The boundary pieces that begin in the strip of an input, in order, each on its support and with what the layer is over
/// it, or left of a vertical one; or that they are more than so many. They are found by one pass over the strip, which
/// stops where there are too many.
pub fn sided_tile(alloc: Global, input: &PassInput, cap: usize) -> Result<SidedTile, AllocError>
    ensures { IfOk result (λ tile. IsSidedTile cap input.now tile) }
{
    let done = cross_strip_while(alloc, input, cap, false, &Always)?;
    let Some(found) = done else { unreachable!() };
    if found.rows.len() > cap {
        return Ok(SidedTile::Oversize);
    }
    let pieces = pieces_of(alloc, &found.names, &found.rows)?;
    Ok(SidedTile::Pieces(pieces))
}

/// Rows that have these names for their ends as pieces with their sides, in their order.
fn pieces_of(alloc: Global, names: &[NodeName], rows: &[Row]) -> Result<Vec<SidedPiece>, AllocError>
    requires spans { All (IsRowSpan names.now) rows.now }
    requires numbered { AreNumbered names.now }
    ensures rows { IfOk result (λ list. map sided_of list.items ≡ map (named names.now) rows.now) }
    ensures segments { IfOk result (λ list. All (λ p. IsSegment p.support) list.items) }
{
    let mut list = Vec::with_capacity(alloc, rows.len())?;
    for row in rows {
        list.push(piece_of(names, row))?;
    }
    Ok(list)
}

/// A row as a piece with its side.
fn piece_of(names: &[NodeName], row: &Row) -> SidedPiece
    requires span { IsRowSpan names.now row.now }
    requires numbered { AreNumbered names.now }
    ensures row { sided_of result ≡ named names.now row.now }
    ensures segment { IsSegment result.support }
{
    // A segment has its left end first: the clause rests on that.
    let _ = row.support.left();
    SidedPiece {
        support: row.support,
        from: name_of(names, row.first).known_point(),
        to: name_of(names, row.last).known_point(),
        over: row.over,
    }
}
