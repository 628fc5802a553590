//! What is left of a ring for a core.
ghost use Rattle.std.specs.Prelude.{◌≡◌, IfOk, OnOk};
ghost use Rattle.near_steps.specs.Cores.{box_of};
ghost use Rattle.near_steps.specs.Thinned.{kept_after, stepped, thinned, IsReduced};

use crate::sides::have_common;
use crate::step::{Spot, Step, spot_of, step_of};
use block_reading::{Core, FarPoint};
use std::alloc::{AllocError, Global};

/// Goes on to one more point of a line: in the place of the last one where the last two and it have a side in common, else
/// the last one is kept.
fn keep_on(kept: &mut Vec<FarPoint>, last: &mut Step, next: Spot) -> Result<(), AllocError>
    ensures last { OnOk result (last.new ≡ stepped last.old next) }
    ensures kept { OnOk result (kept.new.items ≡ kept_after kept.old.items last.old next) }
{
    if !have_common(last.from.off, last.to.off, next.off) {
        kept.push(last.to.at)?;
        last.from = last.to;
    }
    last.to = next;
    Ok(())
}

/// The points of a line, of three on one side of the core without the middle one.
fn thinned(alloc: Global, points: &[FarPoint], core: &Core) -> Result<Vec<FarPoint>, AllocError>
    ensures { IfOk result (λ kept. kept.items ≡ thinned (box_of core.now) points.now) }
{
    let mut kept = Vec::new(alloc);
    let Some((first, others)) = points.split_first() else {
        return Ok(kept);
    };
    kept.push(*first)?;
    let Some((second, rest)) = others.split_first() else {
        return Ok(kept);
    };
    let mut last = step_of(core, *first, *second);
    for p in rest {
        let next = spot_of(core, *p);
        keep_on(&mut kept, &mut last, next)?;
    }
    let end = last.to.at;
    kept.push(end)?;
    Ok(kept)
}

/// What is left of a ring for a core: each part of the core shows the same of it, and so it can be drawn in its place.
pub fn reduced(alloc: Global, points: &[FarPoint], core: &Core) -> Result<Vec<FarPoint>, AllocError>
    ensures reduced { IfOk result (λ kept. IsReduced (box_of core.now) points.now kept.items) }
{
    thinned(alloc, points, core)
}
