//! Points as texts mostly write them: two plain numbers, each after a space or none, and a comma.
ghost use Rattle.std.specs.Prelude.{◌≡◌, ◌≤◌, length, drop, IfSome};
ghost use Rattle.wkt_form.specs.Seen.{seen_from, IsNext, IsNextPoint};

use crate::coordinate::Coordinate;
use crate::number::{Number, plain_number};
use crate::token::Symbol;

/// A point, and the offset after its comma.
#[derive(Clone, Copy, Debug)]
pub struct PlainPoint {
    pub x: Coordinate,
    pub y: Coordinate,
    pub after: usize,
}

/// The offset after the space at an offset, or the offset where there is none.
#[inline(always)]
fn past_space(bytes: &[u8], at: usize) -> usize
    requires { at ≤ length bytes.now }
    ensures same { seen_from at (drop at bytes.now) ≡ seen_from result (drop result bytes.now) }
    ensures on { (at ≤ result) × (result ≤ length bytes.now) }
{
    if at < bytes.len() && bytes[at] == b' ' {
        at + 1
    } else {
        at
    }
}

/// The plain number that comes next from an offset on, if one does, and the offset after it.
#[inline(always)]
fn number_from(bytes: &[u8], at: usize) -> Option<(Number, usize)>
    requires { at ≤ length bytes.now }
    ensures { IfSome result (λ found. IsNext (Symbol.Number found.0) bytes.now at found.1) }
{
    let start = past_space(bytes, at);
    match plain_number(&bytes[start..]) {
        Some((number, size)) => Some((number, start + size)),
        None => None,
    }
}

/// The offset after the comma at an offset, if there is one.
#[inline(always)]
fn after_comma(bytes: &[u8], at: usize) -> Option<usize>
    requires { at ≤ length bytes.now }
    ensures { IfSome result (λ after. IsNext Symbol.Comma bytes.now at after) }
{
    if at < bytes.len() && bytes[at] == b',' {
        Some(at + 1)
    } else {
        None
    }
}

/// The plain point that comes next from an offset on, if one does, with a comma after it.
#[inline(always)]
#[tactic(auto, using(crate::proofs::PlainPoints::next_point))]
pub fn point_from(bytes: &[u8], at: usize) -> Option<PlainPoint>
    requires { at ≤ length bytes.now }
    ensures { IfSome result (λ found. IsNextPoint found.x found.y bytes.now at found.after) }
{
    let (first, after_x) = number_from(bytes, at)?;
    let (second, after_y) = number_from(bytes, after_x)?;
    let after = after_comma(bytes, after_y)?;
    let Number::Whole(x) = first else {
        return None;
    };
    let Number::Whole(y) = second else {
        return None;
    };
    Some(PlainPoint { x, y, after })
}
