//! A point against segments in blocks.
ghost use Rattle.std.specs.Prelude.{◌≡◌, ◌&&◌, ◌%◌, ◌==◌, ◌<ℤ◌, ◌*ℤ◌, int_le, int_lt, count_by, true};
ghost use Rattle.std.specs.List.{AllByRecursion};
ghost use Rattle.overlay_terms.specs.Plane.{is_inside};
ghost use Rattle.overlay_terms.specs.Laws.{is_on_any};
ghost use Rattle.point_looks.specs.Spot.{point_of};
ghost use Rattle.plane_base.specs.Bounds.{Cover, Holds};
ghost use Rattle.point_looks.specs.Outside.{IsOver, Misses, reaches};

use crate::seeing::{Seen, look_at_all};
use crate::spot::Spot;
use plane_base::blocks::next_block;
use plane_base::{Blocks, Bounds, Seg};

/// Whether an odd number of segments is below the point, and whether one holds it. Of a block whose ranges the point
/// does not lie within no segment is looked at, or only the ranges of x where all of them lie lower.
pub fn look_at_blocks(blocks: &Blocks, spot: &Spot) -> Seen
    ensures inside { result.inside ≡ is_inside blocks.now (point_of spot.now) }
    ensures edge { result.edge ≡ is_on_any blocks.now (point_of spot.now) }
{
    let (bounds, segs) = blocks.ordered();
    look(bounds, segs, spot)
}

/// The same of segments whose blocks have these ranges.
fn look(bounds: &[Bounds], segs: &[Seg], spot: &Spot) -> Seen
    requires { Cover bounds.now segs.now }
    ensures inside { result.inside ≡ is_inside segs.now (point_of spot.now) }
    ensures edge { result.edge ≡ is_on_any segs.now (point_of spot.now) }
{
    let mut seen = Seen::NOTHING;
    let mut rest = segs;
    for b in bounds {
        let (block, after) = next_block(rest);
        seen = seen.and(look_at_block(b, block, spot));
        rest = after;
    }
    seen
}

/// The same of a block within ranges.
fn look_at_block(bounds: &Bounds, block: &[Seg], spot: &Spot) -> Seen
    requires { AllByRecursion (Holds bounds.now) block.now }
    ensures inside { result.inside ≡ is_inside block.now (point_of spot.now) }
    ensures edge { result.edge ≡ is_on_any block.now (point_of spot.now) }
{
    if misses(bounds, spot) {
        return Seen::NOTHING;
    }
    if is_lower(bounds, spot) {
        return Seen {
            inside: reach_odd(block, spot.floor_x()),
            edge: false,
        };
    }
    look_at_all(block, spot)
}

/// Whether the point lies left of the ranges, right of them, or below them.
fn misses(bounds: &Bounds, spot: &Spot) -> bool
    ensures { result ≡ true → Misses bounds.now (point_of spot.now) }
{
    if spot.floor_x() < bounds.low_x {
        return true;
    }
    if bounds.high_x < spot.ceil_x() {
        return true;
    }
    spot.floor_y() < bounds.low_y
}

/// Whether the point lies above the ranges.
fn is_lower(bounds: &Bounds, spot: &Spot) -> bool
    ensures { result ≡ true → IsOver bounds.now (point_of spot.now) }
{
    bounds.high_y < spot.ceil_y()
}

/// Whether an odd number of segments goes from at most this x to more.
fn reach_odd(segs: &[Seg], x: i64) -> bool
    ensures { result ≡ (count_by (reaches x) segs.now % 2 == 1) }
{
    let mut odd = false;
    for seg in segs {
        odd = odd != is_across(seg, x);
    }
    odd
}

/// Whether the segment goes from at most this x to more.
fn is_across(seg: &Seg, x: i64) -> bool
    ensures { result ≡ reaches x seg.now }
{
    seg.left().x() <= x && x < seg.right().x()
}
