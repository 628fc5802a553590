//! Segments, and the same in blocks.
ghost use Rattle.std.specs.Prelude.{◌≡◌, ◌≤◌, ◌<◌, ◌+◌, ◌*◌, take, drop, length, IfOk};
ghost use Rattle.std.specs.List.Sorted.{IsPermutation};
ghost use Rattle.plane_base.specs.Bounds.{Cover};

use crate::bounds::Bounds;
use crate::point::Seg;
use std::alloc::{AllocError, Global};
use std::marker::Model;

/// How many segments a block has; the last one may have fewer.
pub(crate) const SEGMENTS_PER_BLOCK: usize = 32;

/// How many segments, at least, go on one way on average where their runs are worth keeping.
const SEGMENTS_PER_RUN: usize = 64;

/// A list of segments, and the same segments again by the x of their left ends, in blocks of 32 with their ranges
/// of x and y.
#[derive(Debug, Drop)]
pub struct Blocks {
    segs: Vec<Seg>,
    sorted: Vec<Seg>,
    bounds: Vec<Bounds>,
}

impl Model for Blocks {
    ghost use Rattle.std.specs.Prelude.{List};
    ghost use Rattle.std.specs.List.Sorted.{IsPermutation};
    ghost use Rattle.overlay_terms.specs.Plane.{Segment};
    ghost use Rattle.plane_base.specs.Bounds.{Cover};

    ghost Value = { List Segment };

    ghost view = { λ b. b.segs.items };

    ghost invariant = { λ b. IsPermutation b.segs.items b.sorted.items × Cover b.bounds.items b.sorted.items };
}

impl Blocks {
    ghost use Rattle.std.specs.List.Sorted.{IsPermutation};

    /// The segments, in blocks too.
    pub fn new(alloc: Global, segs: Vec<Seg>) -> Result<Blocks, AllocError>
        ensures { IfOk result (λ blocks. blocks ≡ segs.items) }
    {
        let sorted = by_left(segs.clone()?)?;
        let bounds = bounds_of(alloc, &sorted)?;
        Ok(Blocks {
            segs,
            sorted,
            bounds,
        })
    }

    /// The segments in the order in which they were given.
    pub fn segs(&self) -> &[Seg]
        ensures { result.now ≡ self.now }
    {
        &self.segs
    }

    /// The ranges of each 32 segments, and the same segments by the x of their left ends.
    pub fn ordered(&self) -> (&[Bounds], &[Seg])
        ensures same { IsPermutation self.now result.1.now }
        ensures cover { Cover result.0.now result.1.now }
    {
        (&self.bounds, &self.sorted)
    }
}

/// The segments by the x of their left ends. Those of an outline go to the right and back in few runs: these are
/// merged, in room for as many segments; others are sorted where they are.
fn by_left(segs: Vec<Seg>) -> Result<Vec<Seg>, AllocError>
    ensures { IfOk result (λ sorted. IsPermutation segs.items sorted.items) }
{
    let mut sorted = segs;
    if is_in_few_runs(&sorted) {
        sorted.sort_by_key(|seg| seg.left().x())?;
    } else {
        sorted.sort_unstable_by_key(|seg| seg.left().x());
    }
    Ok(sorted)
}

/// Whether the left ends seldom turn from right to left or back. Only time and room rest on it.
fn is_in_few_runs(segs: &[Seg]) -> bool {
    let mut turns_allowed = segs.len() / SEGMENTS_PER_RUN;
    let mut was_falling = false;
    for i in 1..segs.len() {
        let is_falling = segs[i].left().x() < segs[i - 1].left().x();
        if is_falling != was_falling {
            if turns_allowed == 0 {
                return false;
            }
            turns_allowed -= 1;
            was_falling = is_falling;
        }
    }
    true
}

/// The ranges of each block.
fn bounds_of(alloc: Global, segs: &[Seg]) -> Result<Vec<Bounds>, AllocError>
    ensures { IfOk result (λ bounds. Cover bounds.items segs.now) }
{
    let mut bounds = Vec::new(alloc);
    let mut rest = segs;
    for _ in 0..block_count(segs.len()) {
        let (block, after) = next_block(rest);
        bounds.push(Bounds::around(block))?;
        rest = after;
    }
    Ok(bounds)
}

/// How many blocks so many segments fill.
fn block_count(len: usize) -> usize
    ensures enough { len ≤ 32 * result }
    ensures none_empty { 32 * result < len + 32 }
{
    len.div_ceil(SEGMENTS_PER_BLOCK)
}

/// The first block, and what is left.
pub fn next_block(rest: &[Seg]) -> (&[Seg], &[Seg])
    ensures block { result.0.now ≡ take 32 rest.now }
    ensures left { result.1.now ≡ drop 32 rest.now }
{
    if rest.len() < SEGMENTS_PER_BLOCK {
        return rest.split_at(rest.len());
    }
    rest.split_at(SEGMENTS_PER_BLOCK)
}
