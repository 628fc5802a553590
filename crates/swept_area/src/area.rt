//! What pieces enclose.
ghost use Rattle.std.specs.Prelude.{◌≡◌, ◌≤◌, ℕ, FitsSigned, IfSome, None, map, take, length};
ghost use Rattle.std.specs.Int.{w128};
ghost use Rattle.swept_area.specs.Swept.{swept_area as area_of};
ghost use Rattle.swept_area.specs.Pieces.{sided_from};

use crate::piece::{Shift, SidedPiece};
use crate::sweeping::swept;

/// Twice the area that some pieces enclose, in parts of a unit square. None only where the sum over the first so many does
/// not fit 128 bits.
pub fn swept_area(pieces: &[SidedPiece], by: &Shift) -> Option<i128>
    ensures value { IfSome result (λ total. total ≡ area_of (map (sided_from by.now) pieces.now)) }
    ensures none { result ≡ None →
        ((n : ℕ) × (n ≤ length pieces.now) × (FitsSigned w128 (area_of (map (sided_from by.now) (take n pieces.now))) → ⊥)) }
{
    let mut total: i128 = 0;
    for piece in pieces {
        let Some(more) = total.checked_add(swept(piece, by)) else {
            return None;
        };
        total = more;
    }
    Some(total)
}
