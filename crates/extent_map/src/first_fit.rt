//! The lowest run of free blocks.
ghost use Rattle.std.specs.Prelude.{◌≡◌, ◌↔◌, ℕ, ◌≤◌, ◌<◌, ◌+◌, IfSome, IfNone, IsTrue};
ghost use Rattle.extent_map.specs.Extents.{IsUnused, Ascend, IsGap};
ghost use Rattle.extent_map.specs.Blocks.{blocks};
ghost use Rattle.extent_map.specs.FirstFit.{IsFirstFit, NoFit};

use crate::extent::Extent;

/// How many bytes a block has.
pub const BLOCK: usize = 4096;

/// The first block that a record may take: the two before it are root slots.
pub const FIRST_BLOCK: u64 = 2;

/// The blocks that so many bytes take.
pub fn blocks_of(length: u32) -> u64
    ensures { result ≡ blocks length }
{
    let block = BLOCK as u64;
    let blocks = (u64::from(length) + (block - 1)) / block;
    if blocks == 0 { 1 } else { blocks }
}

/// Whether so many blocks from a start on end by a bound.
fn ends_by(start: u64, need: u64, bound: u64) -> bool
    ensures { IsTrue result ↔ (start + need ≤ bound) }
{
    need <= bound && start <= bound - need
}

/// The lowest start of so many free blocks, however far up, and their place among the ascending extents.
fn lowest(taken: &[Extent], need: u64) -> (usize, u64)
    requires { Ascend taken.now }
    ensures gap { IsGap taken.now result.0 result.1 need }
    ensures behind { 2 ≤ result.1 }
    ensures lowest { (s : ℕ) → 2 ≤ s → s < result.1 → IsUnused taken.now s need → ⊥ }
{
    let mut start = FIRST_BLOCK;
    for i in 0..taken.len() {
        let extent = taken[i];
        if ends_by(start, need, extent.block) {
            return (i, start);
        }
        let end = extent.block + extent.blocks;
        if end > start {
            start = end;
        }
    }
    (taken.len(), start)
}

/// A run that is free, and its place among the ascending extents.
#[derive(Clone, Copy)]
pub struct Fit {
    pub place: usize,
    pub run: Extent,
}

/// The lowest run of so many blocks that is free and below the limit.
pub fn first_fit(taken: &[Extent], limit: u64, need: u64) -> Option<Fit>
    requires ascending { Ascend taken.now }
    requires some { 1 ≤ need }
    ensures gap { IfSome result (λ found. IsGap taken.now found.place found.run.block need) }
    ensures size { IfSome result (λ found. found.run.blocks ≡ need) }
    ensures fit { IfSome result (λ found. IsFirstFit taken.now limit need found.run.block) }
    ensures none { IfNone result (NoFit taken.now limit need) }
{
    let (place, start) = lowest(taken, need);
    if ends_by(start, need, limit) {
        let run = Extent {
            block: start,
            blocks: need,
        };
        return Some(Fit { place, run });
    }
    None
}
