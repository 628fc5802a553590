//! Where the line of a segment passes points one above the other.
ghost use Rattle.std.specs.Prelude.{◌≡◌, ℕ, ◌^◌, ◌+◌, ◌<◌, ◌==◌, true, ◌&&◌, ◌*ℤ◌, ◌-ℤ◌, ◌<ℤ◌, pos, int_lt, nat_le};
ghost use Rattle.std.specs.Ordering.{int_eq};
ghost use Rattle.overlay_terms.specs.Plane.{height_over};
ghost use Rattle.overlay_terms.specs.Within.{IsWithin};
ghost use Rattle.overlay_grid.specs.Rising.{point_at, start_of};

use crate::rising::Rise;
use exact_point::{minus, whole_cross};
use plane_base::Seg;

/// How many of the points are not above a line, and whether the last of these is on it.
#[derive(Clone, Copy, Debug)]
pub struct Passing {
    pub first: u64,
    pub is_level: bool,
}

/// Where a slanted segment's line passes the points: one division.
pub fn first_above(seg: &Seg, rise: Rise) -> Passing
    requires { seg.now.left.x <ℤ seg.now.right.x }
    ensures above { (j : ℕ) → int_lt (pos 0) (height_over seg.now (point_at rise j)) ≡ nat_le result.first j }
    ensures some { result.is_level ≡ true → 0 < result.first }
    ensures level { (j : ℕ) → int_eq (height_over seg.now (point_at rise j)) (pos 0)
        ≡ (result.is_level && (result.first == j + 1)) }
{
    let over = height(seg, rise);
    let up = pace(seg, rise);
    if over > 0 {
        return Passing {
            first: 0,
            is_level: false,
        };
    }
    let (below, each) = (over.unsigned_abs(), up.unsigned_abs());
    Passing {
        first: below / each + 1,
        is_level: below % each == 0,
    }
}

/// How far the first point lies above the line of a segment, times the segment's width.
fn height(seg: &Seg, rise: Rise) -> i64
    ensures { result ≡ height_over seg.now (start_of rise) }
{
    let (left, right) = (seg.left(), seg.right());
    whole_cross(
        minus(right.x(), left.x()),
        minus(right.y(), left.y()),
        minus(rise.x, left.x()),
        minus(rise.y, left.y()),
    )
}

/// How much higher over a segment's line each point is than the one before, times the width.
fn pace(seg: &Seg, rise: Rise) -> i64
    ensures { result ≡ (seg.now.right.x -ℤ seg.now.left.x) *ℤ rise.step }
{
    product(minus(seg.right().x(), seg.left().x()), rise.step)
}

/// The product of a width and a step.
fn product(a: i64, b: i64) -> i64
    requires a_small { IsWithin (2 ^ 21) a }
    requires b_small { IsWithin (2 ^ 21) b }
    ensures { result ≡ a *ℤ b }
{
    a * b
}
