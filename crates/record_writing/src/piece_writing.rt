//! Pieces are written, by their segments and the names of their ends.
ghost use Rattle.std.specs.Prelude.{◌≡◌, ◌<◌, ◌^◌, true, length, OnOk};
ghost use Rattle.exact_point.specs.PointName.{HasPlace};
ghost use Rattle.record_writing.specs.Putting.{IsPut};
ghost use Rattle.store_terms.specs.Fields.{counted};
ghost use Rattle.store_terms.specs.TileRecord.{has_place, piece as spelled, point_name, segment};

use crate::bytes::{put_four_bytes, put_point};
use exact_point::PointName;
use plane_base::Seg;
use std::alloc::AllocError;
use tile_build::Piece;

/// Writes the number of some pieces after some bytes, and the pieces.
pub(crate) fn put_pieces(out: &mut Vec<u8>, pieces: &[Piece]) -> Result<(), AllocError>
    requires { length pieces.now < 2 ^ 32 }
    ensures { OnOk result (IsPut (counted 4 spelled) pieces.now out.old.items out.new.items) }
{
    put_four_bytes(out, pieces.len() as u32)?;
    for piece in pieces {
        put_piece(out, piece)?;
    }
    Ok(())
}

fn put_piece(out: &mut Vec<u8>, piece: &Piece) -> Result<(), AllocError>
    ensures { OnOk result (IsPut spelled piece.now out.old.items out.new.items) }
{
    let from = piece.from();
    let to = piece.to();
    // Both ends have places by its type, the left one first: the clause rests on that.
    let _ = piece.ends();
    let _ = known_name(&from);
    let _ = known_name(&to);
    put_segment(out, piece.support())?;
    put_point_name(out, from)?;
    put_point_name(out, to)?;
    Ok(())
}

/// Says of a name that has a place that the test accepts it.
fn known_name(name: &PointName)
    requires { HasPlace name.now }
    ensures { has_place name.now ≡ true }
{
    // The call asks that it has a place: the clause rests on that.
    let _ = name.known_point();
}

/// Writes a segment after some bytes.
fn put_segment(out: &mut Vec<u8>, seg: Seg) -> Result<(), AllocError>
    ensures { OnOk result (IsPut segment seg out.old.items out.new.items) }
{
    put_point(out, seg.left())?;
    put_point(out, seg.right())?;
    Ok(())
}

/// Writes the name of a place after some bytes.
fn put_point_name(out: &mut Vec<u8>, name: PointName) -> Result<(), AllocError>
    ensures { OnOk result (IsPut point_name name out.old.items out.new.items) }
{
    match name {
        PointName::Vertex(vertex) => {
            out.push(0)?;
            put_point(out, vertex)?;
            Ok(())
        }
        PointName::Cross(first, second) => {
            out.push(1)?;
            put_segment(out, first)?;
            put_segment(out, second)?;
            Ok(())
        }
        PointName::Border(cut, border) => {
            out.push(2)?;
            put_segment(out, cut)?;
            out.push(border)?;
            Ok(())
        }
    }
}
