//! Building the tiles of neighbouring columns.
ghost use Rattle.std.specs.Prelude.{◌≡◌, ◌+◌, ◌<◌, ◌≤◌, ◌≤ℤ◌, ◌*ℤ◌, ℕ, [], true, false, map, length, get_or, All, AllPairs, IfOk, IfSome};
ghost use Rattle.std.specs.declared.cmp.Ordering.TheVariants.{Less};
ghost use Rattle.overlay_terms.specs.Column.{border, is_in_column};
ghost use Rattle.overlay_terms.specs.Histories as terms;
ghost use Rattle.overlay_terms.specs.Histories.{pieces_max};
ghost use Rattle.overlay_terms.specs.Tiles.{Input, pair_cmp};
ghost use Rattle.crossing_sweep.specs.Crossed.{IsRowSpan};
ghost use Rattle.crossing_sweep.specs.NodeNames.{named_ends, AreNumbered};
ghost use Rattle.crossing_sweep.specs.StripCrossed.{IsStripCrossed};
ghost use Rattle.crossing_sweep.specs.StripInput.{part, IsStripTile};
ghost use Rattle.tile_build.specs.StripTiles.{AreOfStrip};
ghost use Rattle.tile_build.specs.Tile.{tile_of};

use crate::building::pieces_of;
use crate::built::PIECES_MAX;
use crate::ends::is_name_in;
use crate::leaving::build_strip_while;
use crate::shared_built::SharedBuilt;
use crate::tile::Tile;
use crossing_sweep::{Always, Crossed, NodeName, Row, name_of};
use plane_base::Column;
use std::alloc::{AllocError, Global};
use std::sync::Arc;
use strip_inputs::StripInput;

/// Builds the tiles of a strip's columns as `build_strip_while` does, to the end.
pub fn build_strip(alloc: Global, input: &StripInput) -> Result<Vec<SharedBuilt>, AllocError>
    ensures each { IfOk result (λ list. length list.items + input.now.strip.first ≡ input.now.strip.last + 1) }
    ensures inputs { IfOk result (λ list. (i : ℕ) (d : Input × terms.Tile) → i < length list.items
        → (get_or list.items i d).0 ≡ part input.now (input.now.strip.first + i)) }
{
    match build_strip_while(alloc, input, &Always)? {
        Some(list) => Ok(list),
        None => unreachable!(),
    }
}

/// The tiles by what one pass over the strip has found. None come where that are more pieces than a tile holds.
pub(crate) fn tiles_of(
    alloc: Global,
    input: &StripInput,
    found: Crossed,
) -> Result<Option<Vec<SharedBuilt>>, AllocError>
    requires { IsStripCrossed input.now pieces_max false found }
    ensures { IfOk result (λ o. IfSome o (λ list. AreOfStrip input.now list.items)) }
{
    if found.rows.len() > PIECES_MAX {
        return Ok(None);
    }
    let list = split(alloc, input, &found.names, &found.rows)?;
    Ok(Some(list))
}

/// Rows that have these names for their ends as the tiles of the strip's columns, where they are all pieces of the
/// boundary in the strip.
fn split(
    alloc: Global,
    input: &StripInput,
    names: &[NodeName],
    rows: &[Row],
) -> Result<Vec<SharedBuilt>, AllocError>
    requires spans { All (IsRowSpan names.now) rows.now }
    requires numbered { AreNumbered names.now }
    requires tile { IsStripTile input.now (map (named_ends names.now) rows.now) }
    requires few { length rows.now ≤ pieces_max }
    ensures { IfOk result (λ list. AreOfStrip input.now list.items) }
{
    let empty = Arc::new(alloc, Tile::Pieces(Vec::new(alloc)))?;
    let mut start = 0;
    let strip = input.strip();
    let first = strip.first().number();
    let end = strip.last().number() + 1;
    let mut list = Vec::with_capacity(alloc, usize::from(end - first))?;
    for number in first..end {
        let Some(column) = Column::new(u64::from(number)) else {
            unreachable!()
        };
        let next = part_end(column, names, rows, start);
        let tile = shared_tile(alloc, names, &rows[start..next], &empty)?;
        let built = SharedBuilt::of(input, column, tile)?;
        list.push(built)?;
        start = next;
    }
    Ok(list)
}

/// The tile of some rows that have these names for their ends; where there are none, a tile without pieces that is
/// handed in, so that all such columns share it.
fn shared_tile(
    alloc: Global,
    names: &[NodeName],
    rows: &[Row],
    empty: &Arc<Tile>,
) -> Result<Arc<Tile>, AllocError>
    requires spans { All (IsRowSpan names.now) rows.now }
    requires numbered { AreNumbered names.now }
    requires empty { tile_of empty.now.value ≡ terms.pieces [] }
    ensures { IfOk result (λ tile. tile_of tile.value ≡ terms.pieces (map (named_ends names.now) rows.now)) }
{
    if rows.is_empty() {
        return Ok(empty.clone()?);
    }
    let pieces = pieces_of(alloc, names, rows)?;
    Ok(Arc::new(alloc, Tile::Pieces(pieces))?)
}

/// Where the rows end that begin in a column, from some row on.
fn part_end(column: Column, names: &[NodeName], rows: &[Row], start: usize) -> usize
    requires known { start ≤ length rows.now }
    requires spans { All (IsRowSpan names.now) rows.now }
    requires numbered { AreNumbered names.now }
    requires ordered { AllPairs (λ a b. pair_cmp a b ≡ Less) (map (named_ends names.now) rows.now) }
    requires after { (i : ℕ) (d : _) → start ≤ i → i < length rows.now
        → (border column *ℤ (named_ends names.now (get_or rows.now i d)).0.w) ≤ℤ (named_ends names.now (get_or rows.now i d)).0.x }
    ensures from { start ≤ result }
    ensures to { result ≤ length rows.now }
    ensures within { (i : ℕ) (d : _) → start ≤ i → i < result
        → is_in_column column (named_ends names.now (get_or rows.now i d)).0 ≡ true }
    ensures next { (d : _) → result < length rows.now
        → is_in_column column (named_ends names.now (get_or rows.now result d)).0 ≡ false }
{
    let mut low = start;
    let mut high = rows.len();
    while low < high {
        let middle = low + (high - low) / 2;
        if begins_in(column, names, &rows[middle]) {
            low = middle + 1;
        } else {
            high = middle;
        }
    }
    low
}

/// Whether a row begins in a column.
fn begins_in(column: Column, names: &[NodeName], row: &Row) -> bool
    requires span { IsRowSpan names.now row.now }
    requires numbered { AreNumbered names.now }
    ensures { result ≡ is_in_column column (named_ends names.now row.now).0 }
{
    is_name_in(column, &name_of(names, row.first))
}
