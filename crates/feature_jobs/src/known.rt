//! What is known of a feature before any job: its area, and the box of its boundary.
ghost use Rattle.std.specs.Prelude.{◌≡◌, true, Some, IfOk, slice_get};
ghost use Rattle.feature_jobs.specs.Expressions.{AreInCore, of_first};
ghost use Rattle.feature_jobs.specs.Known.{AreKnown, IsKnownAs};
ghost use Rattle.feature_jobs.specs.Pairs.{IsAreaOf, HasNoPoint, nothing_found};
ghost use Rattle.feature_jobs.specs.declared.known.Knowing.TheVariants as knowing;

use crate::expressions::of_two;
use crate::fault::JobFault;
use crate::simple_rings::simple;
use block_reading::Core;
use exact_point::HPoint;
use feature_windows::{
    Features, Found, Near, Window, around, found_in, nothing, pieces_in, windows,
};
use layer_expr::StepList;
use std::alloc::Global;
use swept_area::SidedPiece;

/// Twice a feature's area with its bound, the box of its boundary, which holds nothing where there is none, and whether it
/// is known that all of its steps are boundary.
#[derive(Clone, Copy, Debug)]
pub(crate) struct Known {
    pub found: Found,
    pub extent: Core,
    pub is_plain: bool,
}

/// A feature, or why nothing is known of it.
#[derive(Clone, Copy, Debug)]
pub(crate) enum Knowing {
    Known(Known),
    Fault(JobFault),
}

/// Nothing found in no window.
pub(crate) fn nothing_found() -> Found
    ensures { result ≡ nothing_found }
{
    Found {
        twice: 0,
        bound: 0,
        pieces: 0,
        windows: 0,
    }
}

/// A number of 64 bits, or the one next to it.
fn narrow(z: i128) -> i64 {
    match i64::try_from(z) {
        Ok(own) => own,
        Err(_) => if z < 0 { i64::MIN } else { i64::MAX },
    }
}

/// The whole numbers next to x / w and farther by a number: at most that, and at least that.
fn next_to(x: i128, w: i128, by: i64) -> (i64, i64) {
    match x.checked_div_euclid(w) {
        Some(whole) => {
            let low = narrow(whole).saturating_add(by);
            let is_whole = whole.saturating_mul(w) == x;
            (low, if is_whole { low } else { low.saturating_add(1) })
        }
        None => (by, by),
    }
}

/// The whole box next to a place in a core.
fn around_place(p: &HPoint, core: &Core) -> Core {
    let (low_x, high_x) = next_to(p.x, p.w, core.low_x);
    let (low_y, high_y) = next_to(p.y, p.w, core.low_y);
    Core {
        low_x,
        high_x,
        low_y,
        high_y,
    }
}

/// The box around the pieces of a window.
fn extent_of(pieces: &[SidedPiece], core: &Core) -> Core {
    let mut extent = nothing();
    for one in pieces {
        extent = around(&extent, &around_place(&one.from, core));
        extent = around(&extent, &around_place(&one.to, core));
    }
    extent
}

/// The box around what windows have of an expression.
fn extent_in(alloc: Global, list: &[Window], own: &StepList) -> Result<Core, JobFault> {
    let mut extent = nothing();
    for window in list {
        let pieces = pieces_in(alloc, window, own)?;
        extent = around(&extent, &extent_of(&pieces, &window.core));
    }
    Ok(extent)
}

/// Whether a feature has no point.
fn has_no_point(features: &Features, feature: usize) -> bool
    ensures { result ≡ true → HasNoPoint features.now feature }
{
    match features.rings_of(feature) {
        Some(rings) => {
            let (_, points) = rings.lent();
            points.is_empty()
        }
        None => true,
    }
}

/// What is known of a feature; `own` says that it is the first of two layers, within the core.
fn known_of(
    alloc: Global,
    features: &Features,
    feature: usize,
    own: &StepList,
    limit: usize,
) -> Result<Known, JobFault>
    requires { AreInCore of_first own.now }
    ensures { IfOk result (λ known. IsAreaOf features.now feature known.found) }
{
    let core = features.extent_of(feature);
    if has_no_point(features, feature) {
        return Ok(Known {
            found: nothing_found(),
            extent: nothing(),
            is_plain: false,
        });
    }
    if let Some(found) = simple(features, feature, &core) {
        return Ok(Known {
            found,
            extent: core,
            is_plain: true,
        });
    }
    let list = windows(
        alloc,
        features,
        &[Near { feature, layer: 0 }],
        2,
        &core,
        limit,
    )?;
    let found = found_in(alloc, &list, own, core.low_x, core.low_y)?;
    let extent = extent_in(alloc, &list, own)?;
    Ok(Known {
        found,
        extent,
        is_plain: false,
    })
}

/// The steps of the first of two layers within the core.
fn own_steps(alloc: Global) -> Result<StepList, JobFault>
    ensures { IfOk result (λ steps. AreInCore of_first steps) }
{
    of_two(alloc, b"A & Core")
}

/// What is known of a feature, or why nothing is.
fn knowing_of(
    alloc: Global,
    features: &Features,
    feature: usize,
    own: &StepList,
    limit: usize,
) -> Result<Knowing, JobFault>
    requires { AreInCore of_first own.now }
    ensures { IfOk result (λ one. IsKnownAs features.now feature one) }
{
    match known_of(alloc, features, feature, own, limit) {
        Ok(one) => Ok(Knowing::Known(one)),
        Err(JobFault::OutOfMemory) => Err(JobFault::OutOfMemory),
        Err(fault) => Ok(Knowing::Fault(fault)),
    }
}

/// What is known of all features.
pub(crate) fn all_known(
    alloc: Global,
    features: &Features,
    limit: usize,
) -> Result<Vec<Knowing>, JobFault>
    ensures { IfOk result (λ known. AreKnown features.now known.items) }
{
    let own = own_steps(alloc)?;
    let mut list = Vec::new(alloc);
    for feature in 0..features.count() {
        let one = knowing_of(alloc, features, feature, &own, limit)?;
        list.push(one)?;
    }
    Ok(list)
}

/// What is known of one of them.
pub(crate) fn known_at(list: &[Knowing], feature: usize) -> Result<Known, JobFault>
    ensures { IfOk result (λ known. slice_get list.now feature ≡ Some (knowing.Known known)) }
{
    match list.get(feature) {
        Some(Knowing::Known(one)) => Ok(*one),
        Some(Knowing::Fault(fault)) => Err(*fault),
        None => Err(JobFault::BadRing),
    }
}
