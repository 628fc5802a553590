//! Features of one ring that is simple, as no two of its few steps meet, or as it goes once round the middle of its box: no
//! pass is needed to know its area, and all of its steps are boundary.
ghost use Rattle.std.specs.Prelude.{◌≡◌, ◌∷◌, [], IfSome};
ghost use Rattle.feature_jobs.specs.Pairs.{IsOfRing};

use crate::corner_areas::{in_parts, turned};
use crate::steps::{Step, leads_back, seen_from, steps_meet};
use block_reading::{Core, FarPoint};
use feature_windows::{Features, Found, Rings, parted};

/// A box is less wide and high than this, so that products of ways in it fit 64 bits.
const WIDE_MAX: i64 = 1073741824;

/// The most steps of a ring that are looked at two by two.
const STEPS_MAX: usize = 64;

/// The middle of a box.
fn middle(core: &Core) -> FarPoint {
    FarPoint {
        x: core.low_x.wrapping_add(core.high_x) / 2,
        y: core.low_y.wrapping_add(core.high_y) / 2,
    }
}

/// Whether a box is so small that products of ways in it fit.
fn is_small(core: &Core) -> bool {
    let wide = core.high_x.wrapping_sub(core.low_x);
    let high = core.high_y.wrapping_sub(core.low_y);
    wide < WIDE_MAX && high < WIDE_MAX
}

/// Twice the area that the way from a to b sweeps over, seen from the origin: positive where that lies on its left.
fn turn(a: FarPoint, b: FarPoint) -> i64 {
    a.x.wrapping_mul(b.y).wrapping_sub(a.y.wrapping_mul(b.x))
}

/// What a line has swept over, seen from a point: how many of its steps have the point on their left, how many on their
/// right, and how many lead up past its height.
#[derive(Clone, Copy, Debug)]
struct Swept {
    lefts: usize,
    rights: usize,
    ups: usize,
}

/// Goes on by one step.
fn go_on(so_far: &mut Swept, a: FarPoint, b: FarPoint) {
    let area = turn(a, b);
    if area > 0 {
        so_far.lefts = so_far.lefts.saturating_add(1);
    }
    if area < 0 {
        so_far.rights = so_far.rights.saturating_add(1);
    }
    if a.y < 0 && b.y >= 0 {
        so_far.ups = so_far.ups.saturating_add(1);
    }
}

/// What a line has swept over, seen from a point, and where it ends.
fn sweep(first: FarPoint, others: &[FarPoint], middle: FarPoint) -> (Swept, FarPoint) {
    let mut so_far = Swept {
        lefts: 0,
        rights: 0,
        ups: 0,
    };
    let mut from = seen_from(first, middle);
    for p in others {
        let to = seen_from(*p, middle);
        go_on(&mut so_far, from, to);
        from = to;
    }
    (so_far, from)
}

/// Whether a step of a ring meets none of those after it, but for the end that the next one has too, and the first one
/// and the last one.
fn is_clear(step: &Step, after: &[FarPoint], is_first: bool) -> bool {
    let mut from = step.to;
    let mut left = after.len();
    for to in after {
        let next = Step { from, to: *to };
        let is_wrong = if left == after.len() {
            leads_back(step, &next)
        } else if is_first && left == 1 {
            leads_back(&next, step)
        } else {
            steps_meet(step, &next)
        };
        if is_wrong {
            return false;
        }
        from = *to;
        left = left.saturating_sub(1);
    }
    true
}

/// Whether no two steps of a ring meet but neighbours at the end that both have; not of a ring of many steps.
fn is_simple(first: FarPoint, others: &[FarPoint]) -> bool {
    if others.len() < 3 || others.len() > STEPS_MAX {
        return false;
    }
    let mut from = first;
    let mut rest = others;
    for _ in 0..others.len() {
        let Some((to, after)) = rest.split_first() else {
            return true;
        };
        if !is_clear(&Step { from, to: *to }, after, rest.len() == others.len()) {
            return false;
        }
        from = *to;
        rest = after;
    }
    true
}

/// Whether a line of points is a closed ring that goes once round a point, each of its steps on the same side of it, or
/// one that is simple.
fn is_known(first: FarPoint, others: &[FarPoint], middle: FarPoint) -> bool {
    let (all, end) = sweep(first, others, middle);
    let begin = seen_from(first, middle);
    if end.x != begin.x || end.y != begin.y {
        return false;
    }
    let is_round = all.lefts == others.len() || all.rights == others.len();
    (is_round && all.ups == 1) || is_simple(first, others)
}

/// The first point and the others of the only ring of some rings.
fn only_ring(rings: &Rings) -> Option<(FarPoint, &[FarPoint])>
    ensures { IfSome result (λ ring. rings.now ≡ (ring.0 ∷ ring.1.now) ∷ []) }
{
    let (counts, points) = rings.lent();
    let (count, rest) = counts.split_first()?;
    if !rest.is_empty() {
        return None;
    }
    let (ring, _) = parted(points, *count);
    let (first, others) = ring.split_first()?;
    Some((*first, others))
}

/// What a feature encloses, if it is one ring that is known to be simple.
pub(crate) fn simple(features: &Features, feature: usize, extent: &Core) -> Option<Found>
    ensures { IfSome result (λ found. IsOfRing features.now feature found) }
{
    let rings = features.rings_of(feature)?;
    let Some((first, others)) = only_ring(rings) else {
        return None;
    };
    if !is_small(extent) || !is_known(first, others, middle(extent)) {
        return None;
    }
    let area = turned(first, others)?;
    let twice = in_parts(area)?;
    Some(Found {
        twice,
        bound: 0,
        pieces: others.len(),
        windows: 0,
    })
}
