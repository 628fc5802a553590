//! Building tiles as long as they are wanted.
ghost use Rattle.std.specs.Prelude.{◌≡◌, ◌+◌, ◌<◌, ℕ, length, get_or, IfOk, IfSome, IsNone};
ghost use Rattle.overlay_terms.specs.Histories as terms;
ghost use Rattle.overlay_terms.specs.Tiles.{Input};
ghost use Rattle.crossing_sweep.specs.StripInput.{part};
ghost use Rattle.strip_inputs.specs.Strips.{IsColumnOf};
ghost use Rattle.tile_build.specs.StripTiles.{AreOfStrip};

use crate::building::tile_while;
use crate::built::PIECES_MAX;
use crate::shared_built::SharedBuilt;
use crate::strip_tiles::tiles_of;
use crossing_sweep::{Wish, cross_strip_while};
use plane_base::Column;
use std::alloc::{AllocError, Global};
use std::sync::Arc;
use strip_inputs::StripInput;

/// Builds the tiles of a strip's columns in order, each of its own column's input, as long as they are wanted: after
/// each portion of a pass the wish is asked. They are found by one pass over the strip; where it has more pieces in all
/// than a tile holds, by one pass over each column. None says that the wish has ended, and the pass was left.
pub fn build_strip_while<W: Wish>(
    alloc: Global,
    input: &StripInput,
    wish: &W,
) -> Result<Option<Vec<SharedBuilt>>, AllocError>
    ensures each { IfOk result
        (λ o. IfSome o (λ list. length list.items + input.now.strip.first ≡ input.now.strip.last + 1)) }
    ensures inputs { IfOk result
        (λ o. IfSome o (λ list. (i : ℕ) (d : Input × terms.Tile) → i < length list.items
        → (get_or list.items i d).0 ≡ part input.now (input.now.strip.first + i))) }
    ensures left { IfOk result (λ o. IsNone o → W.ended wish.now) }
{
    let pass = input.pass();
    let done = cross_strip_while(alloc, &pass, PIECES_MAX, false, wish)?;
    let Some(found) = done else {
        return Ok(None);
    };
    if let Some(list) = tiles_of(alloc, input, found)? {
        return Ok(Some(list));
    }
    build_apart_while(alloc, input, wish)
}

/// The tiles of a strip that has too many pieces in all, by one pass over each column, as long as they are wanted.
fn build_apart_while<W: Wish>(
    alloc: Global,
    input: &StripInput,
    wish: &W,
) -> Result<Option<Vec<SharedBuilt>>, AllocError>
    ensures each { IfOk result (λ o. IfSome o (λ list. AreOfStrip input.now list.items)) }
    ensures left { IfOk result (λ o. IsNone o → W.ended wish.now) }
{
    let mut list = Vec::new(alloc);
    let strip = input.strip();
    let first = strip.first().number();
    let end = strip.last().number() + 1;
    for number in first..end {
        let Some(column) = Column::new(u64::from(number)) else {
            unreachable!()
        };
        let done = build_while(alloc, input, column, wish)?;
        let Some(built) = done else {
            return Ok(None);
        };
        list.push(built)?;
    }
    Ok(Some(list))
}

/// Builds the tile of one of a strip's columns by a pass over that column alone, as long as it is wanted. None says that
/// the wish has ended, and the pass was left.
pub fn build_while<W: Wish>(
    alloc: Global,
    input: &StripInput,
    column: Column,
    wish: &W,
) -> Result<Option<SharedBuilt>, AllocError>
    requires { IsColumnOf input.now column }
    ensures input { IfOk result (λ o. IfSome o (λ built. built.0 ≡ part input.now column)) }
    ensures left { IfOk result (λ o. IsNone o → W.ended wish.now) }
{
    let own = input.column_input(alloc, column)?;
    let done = tile_while(alloc, &own, PIECES_MAX, wish)?;
    let Some(tile) = done else {
        return Ok(None);
    };
    let tile = Arc::new(alloc, tile)?;
    let built = SharedBuilt::of(input, column, tile)?;
    Ok(Some(built))
}
