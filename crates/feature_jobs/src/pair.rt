//! Pairs of features.
ghost use Rattle.std.specs.Prelude.{◌≡◌, IfOk};
ghost use Rattle.feature_jobs.specs.Pairs.{IsApart, IsInner, IsTold, IsRelated, ArePairSteps};
ghost use Rattle.feature_jobs.specs.declared.relation.Relation.TheVariants as relations;

use crate::fault::JobFault;
use crate::known::{Known, nothing_found};
use crate::meeting::{Meeting, met_by_steps};
use crate::outlining::outline_in;
use crate::relation::{
    Both, PairSteps, Relation, are_apart, is_part, relation_within, touch, touching,
};
use block_reading::Core;
use boundary_outlines::Outline;
use feature_windows::{Features, Found, Near, Window, common, found_in, nothing, windows};
use std::alloc::Global;

/// What a pair is.
#[derive(Debug, Drop)]
pub(crate) struct PairFound {
    pub relation: Relation,
    /// Whether one contains the other, and no boundary is shared.
    pub is_proper: bool,
    pub a: Found,
    pub b: Found,
    pub both: Found,
    /// The outline of both, if it is wanted, seen from the low corner of a core.
    pub outline: Option<Outline>,
    pub core: Core,
}

/// A pair without a common point.
fn apart_pair(a: &Known, b: &Known) -> PairFound
    ensures first { result.a ≡ a.now.found }
    ensures second { result.b ≡ b.now.found }
    ensures apart { IsApart result }
{
    PairFound {
        relation: Relation::Disjoint,
        is_proper: false,
        a: a.found,
        b: b.found,
        both: nothing_found(),
        outline: None,
        core: nothing(),
    }
}

/// A pair of which one has all of the other in its interior.
fn inner_pair(relation: Relation, a: &Known, b: &Known, less: &Found, core: Core) -> PairFound
    ensures first { result.a ≡ a.now.found }
    ensures second { result.b ≡ b.now.found }
    ensures inner { IsInner relation less.now result }
{
    PairFound {
        relation,
        is_proper: true,
        a: a.found,
        b: b.found,
        both: *less,
        outline: None,
        core,
    }
}

/// Whether some point of some windows is on both boundaries, where steps do not say it.
fn touch_unless(
    alloc: Global,
    met: Meeting,
    list: &[Window],
    steps: &PairSteps,
) -> Result<bool, JobFault> {
    if met == Meeting::Met {
        return Ok(true);
    }
    touch(alloc, list, steps)
}

/// The relation of a pair of which this was found in its windows, and whether it is proper.
fn related(
    alloc: Global,
    features: &Features,
    both: &Both,
    steps: &PairSteps,
    limit: usize,
    list: &[Window],
    met: Meeting,
) -> Result<(Relation, bool), JobFault>
    ensures { IfOk result (λ told. IsRelated features.now both.now.near.now steps.now
        both.now.a.now.found both.now.b.now.found both.now.found.now told.0 told.1) }
{
    if both.found.pieces == 0 {
        let is_met = touch_unless(alloc, met, list, steps)?;
        return Ok((touching(is_met), false));
    }
    let relation = relation_within(alloc, features, both, steps, limit)?;
    if is_part(relation) {
        let is_met = touch_unless(alloc, met, list, steps)?;
        return Ok((relation, !is_met));
    }
    Ok((relation, false))
}

/// A pair by a pass over each window of its core.
fn by_passes(
    alloc: Global,
    features: &Features,
    near: &[Near; 2],
    a: &Known,
    b: &Known,
    steps: &PairSteps,
    limit: usize,
    wants: bool,
    core: Core,
    met: Meeting,
) -> Result<PairFound, JobFault>
    ensures first { IfOk result (λ one. one.a ≡ a.now.found) }
    ensures second { IfOk result (λ one. one.b ≡ b.now.found) }
    ensures told { IfOk result (λ one. ArePairSteps steps.now → IsTold features.now near.now one) }
{
    let list = windows(alloc, features, near, 2, &core, limit)?;
    let found = found_in(alloc, &list, &steps.both, core.low_x, core.low_y)?;
    let both = Both {
        near,
        a,
        b,
        found: &found,
    };
    let (relation, is_proper) = related(alloc, features, &both, steps, limit, &list, met)?;
    let outline = if wants {
        Some(outline_in(alloc, &list, &steps.both, &core)?)
    } else {
        None
    };
    Ok(PairFound {
        relation,
        is_proper,
        a: a.found,
        b: b.found,
        both: found,
        outline,
        core,
    })
}

/// How feature a lies to feature b, and what both have in common, seen from the low corner of what their boxes have: by
/// their steps where these say it, else by passes.
pub(crate) fn pair(
    alloc: Global,
    features: &Features,
    near: &[Near; 2],
    a: &Known,
    b: &Known,
    steps: &PairSteps,
    limit: usize,
    wants: bool,
) -> Result<PairFound, JobFault>
    ensures first { IfOk result (λ one. one.a ≡ a.now.found) }
    ensures second { IfOk result (λ one. one.b ≡ b.now.found) }
    ensures told { IfOk result (λ one. ArePairSteps steps.now → IsTold features.now near.now one) }
{
    if are_apart(a, b) {
        return Ok(apart_pair(a, b));
    }
    let core = common(&a.extent, &b.extent);
    let met = met_by_steps(features, (near[0].feature, a), (near[1].feature, b), &core);
    match met {
        Meeting::Apart => Ok(apart_pair(a, b)),
        Meeting::FirstInside if !wants => Ok(inner_pair(Relation::Within, a, b, &a.found, core)),
        Meeting::SecondInside if !wants => Ok(inner_pair(Relation::Contains, a, b, &b.found, core)),
        _ => by_passes(alloc, features, near, a, b, steps, limit, wants, core, met),
    }
}
