//! What one piece sweeps over.
ghost use Rattle.std.specs.Prelude.{◌≡◌, ◌^◌, ◌+◌, ◌+ℤ◌, ◌*ℤ◌, ◌<ℤ◌, pos};
ghost use Rattle.std.specs.Int.{int_div_euclid};
ghost use Rattle.overlay_terms.specs.Plane.{Segment};
ghost use Rattle.overlay_terms.specs.Within.{IsWithin};
ghost use Rattle.exact_point.specs.Place.{place};
ghost use Rattle.swept_area.specs.Swept.{along, is_flat, signed_of};
ghost use Rattle.swept_area.specs.Pieces.{point_from, sided_from};

use crate::line::{Line, line_from};
use crate::piece::{Shift, SidedPiece};
use crate::places::{x_from, y_from};
use exact_point::HPoint;

/// A quotient times a number of parts, and a rest times it, divided and rounded down.
fn joined(whole: i128, rest: i128, length: i128, v: i128) -> i128
    requires whole_small { IsWithin (2 ^ 43) whole }
    requires rest_small { IsWithin (2 ^ 21) rest }
    requires v_small { IsWithin (2 ^ 82) v }
    requires low { pos 0 <ℤ length }
    requires length_small { IsWithin (2 ^ 21) length }
    ensures value { result ≡ (whole *ℤ v) +ℤ int_div_euclid (rest *ℤ v) length }
    ensures small { IsWithin (2 ^ 125 + 2 ^ 103) result }
{
    whole * v + (rest * v).div_euclid(length)
}

/// The share of what a line's way sweeps over that so many parts of its length have, rounded down.
fn share(line: &Line, v: i128) -> i128
    requires v_small { IsWithin (2 ^ 82) v }
    ensures value { result ≡ int_div_euclid (line.now.turn *ℤ v) line.now.length }
    ensures small { IsWithin (2 ^ 125 + 2 ^ 103) result }
{
    let whole = line.turn.div_euclid(line.length);
    let rest = line.turn.rem_euclid(line.length);
    joined(whole, rest, line.length, v)
}

/// The x of a place in parts, or its y, seen from the origin.
fn along_from(flat: bool, p: &HPoint, by: &Shift) -> i128
    ensures value { (s : Segment) → is_flat s ≡ flat → result ≡ along s (point_from by.now (place p.now)) }
    ensures small { IsWithin (2 ^ 82) result }
{
    if flat { x_from(p, by) } else { y_from(p, by) }
}

/// Twice the area that a piece sweeps over, seen from the origin, with the inside on its left, in parts of a unit square.
pub fn swept(piece: &SidedPiece, by: &Shift) -> i128
    ensures value { result ≡ signed_of (sided_from by.now piece.now) }
    ensures small { IsWithin (2 ^ 126 + 2 ^ 104) result }
{
    let line = line_from(&piece.support, by);
    let from = share(&line, along_from(line.is_flat, &piece.from, by));
    let to = share(&line, along_from(line.is_flat, &piece.to, by));
    if piece.over { to - from } else { from - to }
}
