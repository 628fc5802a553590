//! The records of finished tiles: the column, and the pieces by the names of their ends, or that they are too many.
ghost use Rattle.std.specs.Prelude.{◌≡◌, IfOk};
ghost use Rattle.overlay_terms.specs.Histories.{is_formed};
ghost use Rattle.record_reading.specs.Answers.{Gives, Reads};
ghost use Rattle.record_writing.specs.Tiles.{named_by, unsieved};
ghost use Rattle.store_terms.specs.Image.{or_fault};
ghost use Rattle.store_terms.specs.TileRecord.{tile_of_record};
ghost use Rattle.store_terms.specs.declared.damage.Damage.TheVariants.{TileForm};
ghost use Rattle.tile_build.specs.Tile.{tile_of};

use crate::bytes::{byte_at, four_bytes_at};
use crate::fault::{ReadFault, RecordFault};
use crate::pieces::pieces_at;
use plane_base::Column;
use std::alloc::Global;
use store_terms::damage::Damage;
use tile_build::{PIECES_MAX, Tile};

/// The tile that the record of a tile of this column spells.
pub fn read_tile(alloc: Global, column: Column, bytes: &[u8]) -> Result<Tile, RecordFault>
    ensures { Reads (λ tile. tile_of tile) result (or_fault TileForm (tile_of_record column bytes.now)) }
{
    match tile_in(alloc, column, bytes) {
        Ok(tile) => Ok(tile),
        Err(fault) => Err(fault.as_record_fault(Damage::TileForm)),
    }
}

/// The tile that all of the bytes spell.
fn tile_in(alloc: Global, column: Column, bytes: &[u8]) -> Result<Tile, ReadFault>
    ensures { Gives (λ tile. tile_of tile) result (tile_of_record column bytes.now) }
{
    let (found, tile, formed, rest) = parts_at(alloc, column, bytes)?;
    if found != column.number() {
        return Err(ReadFault::Form);
    }
    if !formed {
        return Err(ReadFault::Form);
    }
    if !rest.is_empty() {
        return Err(ReadFault::Form);
    }
    Ok(tile)
}

/// A column and what may be a tile of it, whether that has the form of a tile of the
/// column given, and what follows them.
fn parts_at(
    alloc: Global,
    column: Column,
    bytes: &[u8],
) -> Result<(u8, Tile, bool, &[u8]), ReadFault>
    ensures parts { Gives (λ x. (named_by x.0 x.1, x.3.now)) result (unsieved.read bytes.now) }
    ensures formed { IfOk result (λ x. x.2 ≡ is_formed (tile_of x.1) column) }
{
    let (form, rest) = byte_at(bytes)?;
    match form {
        0 => {
            let (found, rest) = byte_at(rest)?;
            let (count, rest) = four_bytes_at(rest)?;
            let (pieces, stand, rest) = pieces_at(alloc, column, count, rest)?;
            let few = pieces.len() <= PIECES_MAX;
            Ok((found, Tile::Pieces(pieces), few & stand, rest))
        }
        1 => {
            let (found, rest) = byte_at(rest)?;
            Ok((found, Tile::Oversize, true, rest))
        }
        _ => Err(ReadFault::Form),
    }
}
