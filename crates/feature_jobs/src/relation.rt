//! How two features lie to each other, by the boundaries of layers: their interiors meet exactly if A & B has a boundary,
//! and one has a part off the other exactly if their difference has one, as it has where A & B is less; they touch if the
//! interiors do not meet and some point is on both boundaries.
ghost use Rattle.std.specs.Prelude.{◌≡◌, ◌≤ℤ◌, pos, [], true, false, All, IfOk, IfSome};
ghost use Rattle.feature_jobs.specs.Findings.{HasNoPiece};
ghost use Rattle.feature_jobs.specs.Pairs.{ArePairSteps, HasNoRest, IsByRests, relation_by, touching, is_part};
ghost use Rattle.feature_jobs.specs.Rows.{relation_number};

use crate::expressions::of_two;
use crate::fault::JobFault;
use crate::known::Known;
use block_reading::Core;
use exact_point::HPoint;
use feature_windows::{
    Features, Found, Near, Window, is_nothing, is_within, meet, pieces_in, windows,
};
use layer_expr::StepList;
use std::alloc::Global;
use swept_area::SidedPiece;

/// How one feature lies to another.
#[derive(Clone, Copy, Debug, PartialEq, Eq)]
pub(crate) enum Relation {
    Disjoint,
    Touches,
    Overlaps,
    Within,
    Contains,
    Equals,
}

impl Relation {
    /// The number of a relation.
    pub fn number(self) -> u32
        ensures { result ≡ relation_number self }
    {
        match self {
            Relation::Disjoint => 0,
            Relation::Touches => 1,
            Relation::Overlaps => 2,
            Relation::Within => 3,
            Relation::Contains => 4,
            Relation::Equals => 5,
        }
    }
}

/// The expressions that a pair asks.
#[derive(Debug, Drop)]
pub(crate) struct PairSteps {
    pub both: StepList,
    pub first: StepList,
    pub second: StepList,
    pub first_alone: StepList,
    pub second_alone: StepList,
}

/// Those expressions.
pub(crate) fn pair_steps(alloc: Global) -> Result<PairSteps, JobFault>
    ensures { IfOk result ArePairSteps }
{
    Ok(PairSteps {
        both: of_two(alloc, b"A & B & Core")?,
        first: of_two(alloc, b"A")?,
        second: of_two(alloc, b"B")?,
        first_alone: of_two(alloc, b"(A - B) & Core")?,
        second_alone: of_two(alloc, b"(B - A) & Core")?,
    })
}

/// Whether x / w lies in a span that begins at 0.
fn is_in_span(x: i128, w: i128, low: i64, high: i64) -> bool {
    let wide = i128::from(high).saturating_sub(i128::from(low));
    0 <= x && x <= wide.saturating_mul(w)
}

/// Whether a place lies in a core, whose low corner is the origin.
fn is_in(p: &HPoint, core: &Core) -> bool {
    is_in_span(p.x, p.w, core.low_x, core.high_x) && is_in_span(p.y, p.w, core.low_y, core.high_y)
}

/// The ends of pieces that lie in a core, in order.
fn ends_in(alloc: Global, pieces: &[SidedPiece], core: &Core) -> Result<Vec<HPoint>, JobFault> {
    let mut ends = Vec::new(alloc);
    for one in pieces {
        if is_in(&one.from, core) {
            ends.push(one.from)?;
        }
        if is_in(&one.to, core) {
            ends.push(one.to)?;
        }
    }
    ends.sort_unstable();
    Ok(ends)
}

/// Whether a list in order has a place.
fn has(ends: &[HPoint], place: &HPoint) -> bool {
    let at = ends.partition_point(|one| one < place);
    match ends.get(at) {
        Some(one) => one == place,
        None => false,
    }
}

/// Whether two lists have a place in common; the first is in order.
fn share(ends: &[HPoint], others: &[HPoint]) -> bool {
    for place in others {
        if has(ends, place) {
            return true;
        }
    }
    false
}

/// Whether some point of a window is on both boundaries.
fn touch_in(alloc: Global, window: &Window, steps: &PairSteps) -> Result<bool, JobFault> {
    let first = pieces_in(alloc, window, &steps.first)?;
    let ends = ends_in(alloc, &first, &window.core)?;
    if ends.is_empty() {
        return Ok(false);
    }
    let second = pieces_in(alloc, window, &steps.second)?;
    let others = ends_in(alloc, &second, &window.core)?;
    Ok(share(&ends, &others))
}

/// Whether some point of some windows is on both boundaries.
pub(crate) fn touch(alloc: Global, list: &[Window], steps: &PairSteps) -> Result<bool, JobFault> {
    for window in list {
        if touch_in(alloc, window, steps)? {
            return Ok(true);
        }
    }
    Ok(false)
}

/// Whether there are no pieces.
fn are_none(pieces: &[SidedPiece]) -> bool
    ensures { result ≡ true → pieces.now ≡ [] }
{
    pieces.is_empty()
}

/// Whether an expression has a part in some windows.
fn has_part(alloc: Global, list: &[Window], steps: &StepList) -> Result<bool, JobFault>
    ensures { IfOk result (λ has. has ≡ false → All (HasNoPiece steps.now) list.now) }
{
    for window in list {
        let pieces = pieces_in(alloc, window, steps)?;
        if !are_none(&pieces) {
            return Ok(true);
        }
    }
    Ok(false)
}

/// Two features, with what is known of both, and what both have in common.
#[derive(Debug, Drop)]
pub(crate) struct Both<'a> {
    pub near: &'a [Near; 2],
    pub a: &'a Known,
    pub b: &'a Known,
    pub found: &'a Found,
}

/// Whether an area is less than another by more than both may be off; none where that is not known. The first is that of a
/// part of the second: so where both are exact and equal, the part is all of it.
fn is_less(less: &Found, whole: &Found) -> Option<bool>
    ensures less { IfSome result (λ is. is ≡ false → less.now.bound ≡ pos 0) }
    ensures whole { IfSome result (λ is. is ≡ false → whole.now.bound ≡ pos 0) }
    ensures all { IfSome result (λ is. is ≡ false → whole.now.twice ≤ℤ less.now.twice) }
{
    if less.bound == 0 && whole.bound == 0 {
        return Some(less.twice < whole.twice);
    }
    let off = less.bound.saturating_add(whole.bound);
    if less.twice.saturating_add(off) < whole.twice {
        return Some(true);
    }
    None
}

/// Whether one of two features has a part off the other, by the boxes of their boundaries or by areas, or else by a pass
/// for what it alone has.
fn has_rest(
    alloc: Global,
    features: &Features,
    near: &[Near; 2],
    one: &Known,
    other: &Known,
    alone: &StepList,
    found: &Found,
    limit: usize,
) -> Result<bool, JobFault>
    ensures { IfOk result
        (λ has. has ≡ false → HasNoRest features.now near.now alone.now one.now.found found.now) }
{
    if !is_within(&one.extent, &other.extent) {
        return Ok(true);
    }
    if let Some(is_part) = is_less(found, &one.found) {
        return Ok(is_part);
    }
    let list = windows(alloc, features, near, 2, &one.extent, limit)?;
    has_part(alloc, &list, alone)
}

/// The relation of two features whose interiors meet, by whether the first has a part off the second, and the second off
/// the first.
fn relation_by(first: bool, second: bool) -> Relation
    ensures { result ≡ relation_by first second }
{
    match (first, second) {
        (true, true) => Relation::Overlaps,
        (false, true) => Relation::Within,
        (true, false) => Relation::Contains,
        (false, false) => Relation::Equals,
    }
}

/// The relation of two features whose interiors do not meet, by whether their boundaries have a point in common.
pub(crate) fn touching(met: bool) -> Relation
    ensures { result ≡ touching met }
{
    if met {
        Relation::Touches
    } else {
        Relation::Disjoint
    }
}

/// Whether one of two features contains the other.
pub(crate) fn is_part(relation: Relation) -> bool
    ensures { result ≡ is_part relation }
{
    match relation {
        Relation::Within | Relation::Contains => true,
        _ => false,
    }
}

/// The relation of two features whose interiors meet.
pub(crate) fn relation_within(
    alloc: Global,
    features: &Features,
    both: &Both,
    steps: &PairSteps,
    limit: usize,
) -> Result<Relation, JobFault>
    ensures { IfOk result (λ relation. IsByRests features.now both.now.near.now steps.now
        both.now.a.now.found both.now.b.now.found both.now.found.now relation) }
{
    let (near, a, b, found) = (both.near, both.a, both.b, both.found);
    let first = has_rest(
        alloc,
        features,
        near,
        a,
        b,
        &steps.first_alone,
        found,
        limit,
    )?;
    let second = has_rest(
        alloc,
        features,
        near,
        b,
        a,
        &steps.second_alone,
        found,
        limit,
    )?;
    Ok(relation_by(first, second))
}

/// Whether two features have no point in common, by the boxes of their boundaries.
pub(crate) fn are_apart(a: &Known, b: &Known) -> bool {
    is_nothing(&a.extent) || is_nothing(&b.extent) || !meet(&a.extent, &b.extent)
}
