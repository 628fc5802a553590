//! Steps of rings, and whether two have a point in common.
use block_reading::FarPoint;

/// A step of a ring.
#[derive(Clone, Copy, Debug)]
pub(crate) struct Step {
    pub from: FarPoint,
    pub to: FarPoint,
}

/// The product, which fits.
fn product(a: i64, b: i64) -> i128 {
    i128::from(a).wrapping_mul(i128::from(b))
}

/// Positive where a point lies on the left of a step, negative on its right, 0 where it lies on its line.
fn side_of_line(step: &Step, p: FarPoint) -> i128 {
    let (way, at) = (seen_from(step.to, step.from), seen_from(p, step.from));
    product(way.x, at.y).wrapping_sub(product(way.y, at.x))
}

/// Whether a step has both ends of another on one side of its line.
fn is_beside(step: &Step, other: &Step) -> bool {
    let (from, to) = (side_of_line(step, other.from), side_of_line(step, other.to));
    (from < 0 && to < 0) || (from > 0 && to > 0)
}

/// Whether two spans, the ends of each in any order, have a number in common.
fn spans_meet(a: i64, b: i64, c: i64, d: i64) -> bool {
    let is_under = a < c && a < d && b < c && b < d;
    let is_over = a > c && a > d && b > c && b > d;
    !is_under && !is_over
}

/// Whether two steps have a point in common.
pub(crate) fn steps_meet(one: &Step, other: &Step) -> bool {
    spans_meet(one.from.x, one.to.x, other.from.x, other.to.x)
        && spans_meet(one.from.y, one.to.y, other.from.y, other.to.y)
        && !is_beside(one, other)
        && !is_beside(other, one)
}

/// A point, seen from another. Coordinates are far below the ends of 64 bits.
pub(crate) fn seen_from(p: FarPoint, from: FarPoint) -> FarPoint {
    FarPoint {
        x: p.x.wrapping_sub(from.x),
        y: p.y.wrapping_sub(from.y),
    }
}

/// Whether a step leads back along the one that ends where it begins, or one of both leads nowhere.
pub(crate) fn leads_back(step: &Step, next: &Step) -> bool {
    let (way, more) = (seen_from(step.to, step.from), seen_from(next.to, next.from));
    let ahead = product(way.x, more.x).wrapping_add(product(way.y, more.y));
    side_of_line(step, next.to) == 0 && ahead <= 0
}
