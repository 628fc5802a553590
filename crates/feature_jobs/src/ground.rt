//! What the jobs of a block share.
ghost use Rattle.std.specs.Prelude.{◌≡◌, ◌≤◌, IfErr, IfOk, IsOk};
ghost use Rattle.block_reading.specs.Block.{features_of};
ghost use Rattle.feature_jobs.specs.Expressions.{AreAsked};
ghost use Rattle.feature_jobs.specs.Shared.{AreShared, asked_of};
ghost use Rattle.feature_jobs.specs.declared.fault.JobFault.TheVariants as faults;

use crate::expressions::within_core;
use crate::fault::JobFault;
use crate::known::{Knowing, all_known};
use crate::relation::{PairSteps, pair_steps};
use block_reading::Block;
use feature_windows::Features;
use layer_expr::StepList;
use std::alloc::Global;

/// What the jobs of a kind share.
#[derive(Debug, Drop)]
pub(crate) enum Shared {
    Pairs(Vec<Knowing>, PairSteps),
    Cells(StepList),
    Points,
}

/// What all jobs of a block share.
#[derive(Debug, Drop)]
pub(crate) struct Ground {
    pub features: Features,
    pub shared: Shared,
    pub limit: usize,
    pub outlines: bool,
    pub fractions: bool,
}

/// What the jobs of the kind of a block share.
fn shared_of(alloc: Global, block: &Block, features: &Features) -> Result<Shared, JobFault>
    ensures shared { IfOk result (λ shared. AreShared features.now shared) }
    ensures asked { block.now.head.kind ≡ 1
        → IfOk result (λ shared. AreAsked block.now.expression block.now.head.layers (asked_of shared)) }
    ensures points { 2 ≤ block.now.head.kind → IsOk result }
{
    let head = block.head();
    match head.kind {
        0 => {
            let steps = pair_steps(alloc)?;
            let known = all_known(alloc, features, head.limit as usize)?;
            Ok(Shared::Pairs(known, steps))
        }
        1 => Ok(Shared::Cells(within_core(alloc, block.expression(), head.layers as usize)?)),
        _ => Ok(Shared::Points),
    }
}

/// What the jobs of a block share.
pub(crate) fn ground_of(alloc: Global, block: &Block) -> Result<Ground, JobFault>
    ensures features { IfOk result (λ ground. ground.features ≡ features_of block.now.shapes) }
    ensures shared { IfOk result (λ ground. AreShared ground.features ground.shared) }
    ensures asked { block.now.head.kind ≡ 1
        → IfOk result (λ ground. AreAsked block.now.expression block.now.head.layers (asked_of ground.shared)) }
    ensures points { 2 ≤ block.now.head.kind → IfErr result (λ fault. fault ≡ faults.OutOfMemory) }
{
    let head = block.head();
    let features = Features::of(alloc, block.shapes())?;
    let shared = shared_of(alloc, block, &features)?;
    Ok(Ground {
        features,
        shared,
        limit: head.limit as usize,
        outlines: head.flags % 2 == 1,
        fractions: head.flags / 2 % 2 == 1,
    })
}
