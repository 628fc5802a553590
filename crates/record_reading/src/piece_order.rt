//! Whether pieces may be in a tile, as they are read one after another.
ghost use Rattle.std.specs.Prelude.{◌≡◌, ◌≤◌, ◌++◌, ◌∷◌, [], ◌&&◌, List, length};
ghost use Rattle.exact_point.specs.NamedPiece.{NamedPiece};
ghost use Rattle.record_reading.specs.PieceOrder.{are_in_order};

use plane_base::Column;
use tile_build::Piece;

/// Whether the last of some pieces begins in a column and comes after the one before it. With the others it says
/// whether all do.
pub(crate) fn is_last_placed(pieces: &[Piece], column: Column) -> bool
    requires { 1 ≤ length pieces.now }
    ensures { (before : List NamedPiece) (last : NamedPiece) → pieces.now ≡ before ++ last ∷ []
        → are_in_order column pieces.now ≡ (are_in_order column before && result) }
{
    let last = pieces.len() - 1;
    if !pieces[last].begins_in(column) {
        return false;
    }
    if last == 0 {
        return true;
    }
    pieces[last - 1].is_before(&pieces[last])
}
