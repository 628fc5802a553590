//! What a segment changes among points one above the other.
ghost use Rattle.std.specs.Prelude.{◌≡◌, ℕ, ◌<◌, ◌+◌, ◌==◌, ◌&&◌, ◌<ℤ◌, ◌≤ℤ◌, ◌+ℤ◌, ◌*ℤ◌, if◌then◌else◌};
ghost use Rattle.std.specs.Prelude.{length, not, true, pos, int_lt, nat_le};
ghost use Rattle.std.specs.Ordering.{int_eq};
ghost use Rattle.overlay_terms.specs.Layers.{layers_max};
ghost use Rattle.overlay_terms.specs.Plane.{height_over, is_below, is_on};
ghost use Rattle.overlay_terms.specs.Trees.{mask_bits};
ghost use Rattle.overlay_grid.specs.Rising.{point_at};
ghost use Rattle.overlay_grid.specs.Turning.{AreMarked, AreTurned};

use crate::passing::{Passing, first_above};
use crate::rising::Rise;
use plane_base::Seg;

/// Marks from where on a segment of a layer is below the points, and which of them it holds.
pub fn mark_segment(turns: &mut [u32], edges: &mut [bool], layer: u8, seg: &Seg, rise: Rise)
    requires { layer < layers_max }
    ensures turns_len { length turns.new ≡ length turns.old }
    ensures edges_len { length edges.new ≡ length edges.old }
    ensures turns { AreTurned (is_below seg.now) layer rise turns.old turns.new }
    ensures edges { AreMarked (is_on seg.now) rise edges.old edges.new }
{
    let (left, right) = (seg.left().x(), seg.right().x());
    if rise.x < left {
        return;
    }
    if right < rise.x {
        return;
    }
    if left == right {
        mark_upright(edges, seg, rise);
        return;
    }
    let passing = first_above(seg, rise);
    mark_turn(turns, layer, seg, rise, passing.first);
    mark_edge(edges, seg, rise, passing);
}

/// Marks where a slanted segment of a layer begins to be below the points.
fn mark_turn(turns: &mut [u32], layer: u8, seg: &Seg, rise: Rise, first: u64)
    requires few { layer < layers_max }
    requires from_left { seg.now.left.x ≤ℤ rise.x }
    requires above { (j : ℕ) → int_lt (pos 0) (height_over seg.now (point_at rise j)) ≡ nat_le first j }
    ensures len { length turns.new ≡ length turns.old }
    ensures turns { AreTurned (is_below seg.now) layer rise turns.old turns.new }
{
    if seg.right().x() <= rise.x {
        return;
    }
    if first < turns.len() as u64 {
        let at = first as usize;
        turns[at] = toggled(turns[at], layer);
    }
}

/// A mask with one bit changed.
fn toggled(mask: u32, layer: u8) -> u32
    requires { layer < layers_max }
    ensures { (k : ℕ) → mask_bits result k ≡ (if layer == k then not (mask_bits mask k) else mask_bits mask k) }
{
    mask ^ (1 << layer)
}

/// Marks the point that a slanted segment over their x holds, if it holds one.
fn mark_edge(edges: &mut [bool], seg: &Seg, rise: Rise, passing: Passing)
    requires slanted { seg.now.left.x <ℤ seg.now.right.x }
    requires from_left { seg.now.left.x ≤ℤ rise.x }
    requires to_right { rise.x ≤ℤ seg.now.right.x }
    requires some { passing.is_level ≡ true → 0 < passing.first }
    requires level { (j : ℕ) → int_eq (height_over seg.now (point_at rise j)) (pos 0)
        ≡ (passing.is_level && (passing.first == j + 1)) }
    ensures len { length edges.new ≡ length edges.old }
    ensures edges { AreMarked (is_on seg.now) rise edges.old edges.new }
{
    if !passing.is_level {
        return;
    }
    let last = passing.first - 1;
    if last < edges.len() as u64 {
        edges[last as usize] = true;
    }
}

/// Marks the points that an upright segment at their x holds.
fn mark_upright(edges: &mut [bool], seg: &Seg, rise: Rise)
    requires upright { seg.now.left.x ≡ seg.now.right.x }
    requires over { rise.x ≡ seg.now.left.x }
    ensures len { length edges.new ≡ length edges.old }
    ensures edges { AreMarked (is_on seg.now) rise edges.old edges.new }
{
    for j in 0..edges.len() {
        if is_between(seg, rise, j) {
            edges[j] = true;
        }
    }
}

/// Whether an upright segment at their x holds a point.
fn is_between(seg: &Seg, rise: Rise, j: usize) -> bool
    requires upright { seg.now.left.x ≡ seg.now.right.x }
    requires over { rise.x ≡ seg.now.left.x }
    ensures { result ≡ is_on seg.now (point_at rise j) }
{
    let y = height_at(rise, j);
    // Eager, so that one equation says all: neither side costs more than a comparison.
    (i128::from(seg.left().y()) <= y) & (y <= i128::from(seg.right().y()))
}

/// The y of a point.
fn height_at(rise: Rise, j: usize) -> i128
    ensures { result ≡ rise.y +ℤ (rise.step *ℤ pos j) }
{
    i128::from(rise.y) + i128::from(rise.step) * j as i128
}
