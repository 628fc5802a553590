//! The area of a ring by its corners.
ghost use Rattle.std.specs.Prelude.{◌≡◌, ◌*ℤ◌, ◌-ℤ◌, IfSome};
ghost use Rattle.feature_jobs.specs.Corners.{turn_of, turned, in_parts};

use block_reading::FarPoint;

/// Into how many parts a unit square is divided.
const PARTS: i128 = 1099511627776;

/// The product of two numbers.
fn product(a: i64, b: i64) -> Option<i128>
    ensures { IfSome result (λ product. product ≡ a *ℤ b) }
{
    i128::from(a).checked_mul(i128::from(b))
}

/// What the first way has across the second.
fn cross(x: i64, y: i64, to_x: i64, to_y: i64) -> Option<i128>
    ensures { IfSome result (λ turn. turn ≡ x *ℤ to_y -ℤ y *ℤ to_x) }
{
    let right = product(x, to_y)?;
    let left = product(y, to_x)?;
    let turn = right.checked_sub(left)?;
    Some(turn)
}

/// What a step adds to twice the area on the left of its line.
fn turn_of(from: FarPoint, to: FarPoint) -> Option<i128>
    ensures { IfSome result (λ turn. turn ≡ turn_of from to) }
{
    cross(from.x, from.y, to.x, to.y)
}

/// Twice the area on the left of a line, seen from the origin.
pub(crate) fn turned(first: FarPoint, others: &[FarPoint]) -> Option<i128>
    ensures { IfSome result (λ twice. twice ≡ turned first others.now) }
{
    let mut twice: i128 = 0;
    let mut from = first;
    for to in others {
        let turn = turn_of(from, *to)?;
        twice = twice.checked_add(turn)?;
        from = *to;
    }
    Some(twice)
}

/// Twice an area in parts of a unit square, whatever its sign.
pub(crate) fn in_parts(twice: i128) -> Option<i128>
    ensures { IfSome result (λ parts. parts ≡ in_parts twice) }
{
    if twice < 0 {
        0_i128.checked_sub(twice)?.checked_mul(PARTS)
    } else {
        twice.checked_mul(PARTS)
    }
}
