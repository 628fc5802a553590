//! What the boundary pieces of a strip enclose.
ghost use Rattle.std.specs.Prelude.{◌≡◌, ◌≤◌, ℕ, FitsSigned, IfSome, None, map, take, length, All};
ghost use Rattle.std.specs.Int.{w128};
ghost use Rattle.swept_area.specs.Pieces.{sided_from};
ghost use Rattle.swept_area.specs.Swept as terms;
ghost use Rattle.sided_pieces.specs.Sided.{sided_of, IsNearArea, IsOnItsSupport};

use swept_area::{Shift, SidedPiece, area_is_near, swept_area};

/// Twice the area that pieces enclose which lie on their supports, seen from the origin, in parts of a unit square: the sum
/// of what each sweeps over. None only where the sum over the first so many does not fit 128 bits.
pub fn enclosed_area(pieces: &[SidedPiece], by: &Shift) -> Option<i128>
    requires { All IsOnItsSupport (map sided_of pieces.now) }
    ensures value { IfSome result (λ total. total ≡ terms.swept_area (map (sided_from by.now) pieces.now)) }
    ensures near { IfSome result (λ total. IsNearArea (map (sided_from by.now) pieces.now) total) }
    ensures none { result ≡ None →
        ((n : ℕ) × (n ≤ length pieces.now) × (FitsSigned w128 (terms.swept_area (map (sided_from by.now) (take n pieces.now))) → ⊥)) }
{
    area_is_near();
    swept_area(pieces, by)
}
