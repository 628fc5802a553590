//! The records of finished tiles are written: the column, and the pieces, or that they are too many.
ghost use Rattle.std.specs.Prelude.{◌≡◌, Some, IfOk, OnOk, IsTrue};
ghost use Rattle.overlay_terms.specs.Histories.{is_formed as has_form};
ghost use Rattle.record_writing.specs.Putting.{IsPut};
ghost use Rattle.record_writing.specs.Tiles.{named_by, unsieved};
ghost use Rattle.store_terms.specs.TileRecord.{named_tile, tile_of_record, IsTileRecord};
ghost use Rattle.tile_build.specs.Tile.{tile_of};

use crate::piece_writing::put_pieces;
use plane_base::Column;
use std::alloc::{AllocError, Global};
use tile_build::Tile;

/// The record of a finished tile of a column.
pub fn write_tile(alloc: Global, column: Column, tile: &Tile) -> Result<Vec<u8>, AllocError>
    requires { IsTrue (has_form (tile_of tile.now) column) }
    ensures spelled { IfOk result (λ v. v.items ≡ named_tile.text (named_by column tile.now)) }
    ensures is_record { IfOk result (λ v. IsTileRecord column (tile_of tile.now) v.items) }
    ensures reads_back { IfOk result (λ v. tile_of_record column v.items ≡ Some (tile_of tile.now)) }
{
    let mut out = Vec::new(alloc);
    put_parts(&mut out, column.number(), tile)?;
    Ok(out)
}

/// Writes the number of a column and a tile of it after some bytes.
fn put_parts(out: &mut Vec<u8>, column: u8, tile: &Tile) -> Result<(), AllocError>
    requires { IsTrue (has_form (tile_of tile.now) column) }
    ensures { OnOk result (IsPut unsieved (named_by column tile.now) out.old.items out.new.items) }
{
    match tile {
        Tile::Pieces(pieces) => {
            out.push(0)?;
            out.push(column)?;
            put_pieces(out, pieces)?;
            Ok(())
        }
        Tile::Oversize => {
            out.push(1)?;
            out.push(column)?;
            Ok(())
        }
    }
}
