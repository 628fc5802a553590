//! Cells of an expression.
ghost use Rattle.std.specs.Prelude.{◌≡◌, ◌-◌, map, IfOk};
ghost use Rattle.feature_jobs.specs.Answers.{near_of};
ghost use Rattle.feature_jobs.specs.Findings.{IsFoundOf};

use crate::fault::JobFault;
use crate::outlining::outline_in;
use block_reading::{Core, Member};
use boundary_outlines::Outline;
use feature_windows::{Features, Found, Near, found_in, windows};
use layer_expr::StepList;
use std::alloc::{AllocError, Global};

/// The members of a job, as features near its core.
fn nears(alloc: Global, members: &[Member]) -> Result<Vec<Near>, AllocError>
    ensures { IfOk result (λ list. list.items ≡ map near_of members.now) }
{
    let mut list = Vec::new(alloc);
    for one in members {
        list.push(Near {
            feature: one.feature as usize,
            layer: one.layer as usize,
        })?;
    }
    Ok(list)
}

/// What an expression over so many layers of features holds of a core, whose own layer is the last one; and its outline, if
/// that is wanted.
pub(crate) fn cells(
    alloc: Global,
    features: &Features,
    steps: &StepList,
    core: &Core,
    members: &[Member],
    limit: usize,
    wants: bool,
) -> Result<(Found, Option<Outline>), JobFault>
    ensures { IfOk result
        (λ both. IsFoundOf features.now (map near_of members.now) (steps.now.bases - 1) core.now steps.now both.0) }
{
    let near = nears(alloc, members)?;
    let count = usize::from(steps.bases()).saturating_sub(1);
    let list = windows(alloc, features, &near, count, core, limit)?;
    let found = found_in(alloc, &list, steps, core.low_x, core.low_y)?;
    if wants {
        return Ok((found, Some(outline_in(alloc, &list, steps, core)?)));
    }
    Ok((found, None))
}
