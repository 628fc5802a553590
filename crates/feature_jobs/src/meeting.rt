//! How two features lie to each other by their steps alone, where no pass is needed: where no step of one meets one of the
//! other, each ring of one lies off the other or inside it as a whole.
use crate::known::Known;
use crate::steps::{Step, steps_meet};
use block_reading::{Core, FarFraction, FarPoint};
use feature_spots::{Spot, locate};
use feature_windows::{Features, Rings, is_within, parted};

/// The most pairs of steps that are looked at.
const LOOKS_MAX: usize = 16384;

/// What the steps of two features say.
#[derive(Clone, Copy, Debug, PartialEq, Eq)]
pub(crate) enum Meeting {
    /// They have no point in common.
    Apart,
    /// The interior of the second has all of the first, with its boundary.
    FirstInside,
    /// The interior of the first has all of the second, with its boundary.
    SecondInside,
    /// Their boundaries have a point in common.
    Met,
    /// They do not say which of these it is.
    Unknown,
}

/// Whether a step lies off a core on one side.
fn is_off(step: &Step, core: &Core) -> bool {
    let (from, to) = (step.from, step.to);
    (from.x < core.low_x && to.x < core.low_x)
        || (core.high_x < from.x && core.high_x < to.x)
        || (from.y < core.low_y && to.y < core.low_y)
        || (core.high_y < from.y && core.high_y < to.y)
}

/// How many steps of a ring do not lie off a core on one side.
fn near_in(ring: &[FarPoint], core: &Core) -> usize {
    let Some((first, others)) = ring.split_first() else {
        return 0;
    };
    let mut from = *first;
    let mut count: usize = 0;
    for to in others {
        if !is_off(&Step { from, to: *to }, core) {
            count = count.saturating_add(1);
        }
        from = *to;
    }
    count
}

/// How many steps of rings do not lie off a core on one side.
fn near_count(rings: &Rings, core: &Core) -> usize {
    let (counts, points) = rings.lent();
    let mut rest = points;
    let mut count: usize = 0;
    for size in counts {
        let (ring, after) = parted(rest, *size);
        count = count.saturating_add(near_in(ring, core));
        rest = after;
    }
    count
}

/// Whether a step has a point in common with one of a ring.
fn meets_ring(step: &Step, ring: &[FarPoint]) -> bool {
    let Some((first, others)) = ring.split_first() else {
        return false;
    };
    let mut from = *first;
    for to in others {
        if steps_meet(step, &Step { from, to: *to }) {
            return true;
        }
        from = *to;
    }
    false
}

/// Whether a step has a point in common with one of rings.
fn meets_rings(step: &Step, rings: &Rings) -> bool {
    let (counts, points) = rings.lent();
    let mut rest = points;
    for size in counts {
        let (ring, after) = parted(rest, *size);
        if meets_ring(step, ring) {
            return true;
        }
        rest = after;
    }
    false
}

/// Whether a step of a ring near a core has a point in common with one of rings.
fn ring_meets(ring: &[FarPoint], others: &Rings, core: &Core) -> bool {
    let Some((first, rest)) = ring.split_first() else {
        return false;
    };
    let mut from = *first;
    for to in rest {
        let step = Step { from, to: *to };
        if !is_off(&step, core) && meets_rings(&step, others) {
            return true;
        }
        from = *to;
    }
    false
}

/// Whether a step of rings near a core has a point in common with one of others.
fn rings_meet(rings: &Rings, others: &Rings, core: &Core) -> bool {
    let (counts, points) = rings.lent();
    let mut rest = points;
    for size in counts {
        let (ring, after) = parted(rest, *size);
        if ring_meets(ring, others, core) {
            return true;
        }
        rest = after;
    }
    false
}

/// How many points rings have.
fn size(rings: &Rings) -> usize {
    let (_, points) = rings.lent();
    points.len()
}

/// Where a whole point lies against rings.
fn located(rings: &Rings, p: FarPoint) -> Option<Spot> {
    let (counts, points) = rings.lent();
    locate(
        counts,
        points,
        &FarFraction {
            x: p.x,
            y: p.y,
            w: 1,
        },
    )
}

/// Where the first points of all rings lie against others, if that is the same for all; none where it is not, or where
/// that takes many looks.
fn common_spot(rings: &Rings, others: &Rings) -> Option<Spot> {
    let (counts, points) = rings.lent();
    if counts.len().saturating_mul(size(others)) > LOOKS_MAX {
        return None;
    }
    let mut found = located(others, *points.first()?)?;
    let mut rest = points;
    for count in counts {
        let (ring, after) = parted(rest, *count);
        if located(others, *ring.first()?)? != found {
            return None;
        }
        rest = after;
    }
    Some(found)
}

/// Two features whose steps do not meet, by where the rings of each lie against the other.
fn unmet(a: &Rings, b: &Rings) -> Meeting {
    match (common_spot(a, b), common_spot(b, a)) {
        (Some(Spot::Outside), Some(Spot::Outside)) => Meeting::Apart,
        (Some(Spot::Inside), Some(Spot::Outside)) => Meeting::FirstInside,
        (Some(Spot::Outside), Some(Spot::Inside)) => Meeting::SecondInside,
        _ => Meeting::Unknown,
    }
}

/// A feature of which no step is near a core, against another one, both of whose boxes have that core in common: it has
/// all of the core or nothing of it. Where it has all of it, and the core holds all of the other one (`is_all`), that
/// one is inside: `inside` says which it is.
fn by_corner(rings: &Rings, core: &Core, is_all: bool, inside: Meeting) -> Meeting {
    let corner = FarPoint {
        x: core.low_x,
        y: core.low_y,
    };
    match located(rings, corner) {
        Some(Spot::Outside) => Meeting::Apart,
        Some(Spot::Inside) => if is_all { inside } else { Meeting::Unknown },
        _ => Meeting::Unknown,
    }
}

/// A feature of a pair: its rings, what is known of it, how many of its steps are near the core, and whether all of them
/// lie in the box of its boundary.
#[derive(Clone, Copy, Debug)]
struct InPair<'a> {
    rings: &'a Rings,
    known: &'a Known,
    near: usize,
    is_in_extent: bool,
}

/// A feature of a pair.
fn in_pair<'a>(
    features: &'a Features,
    feature: usize,
    known: &'a Known,
    core: &Core,
) -> Option<InPair<'a>> {
    let rings = features.rings_of(feature)?;
    Some(InPair {
        rings,
        known,
        near: near_count(rings, core),
        is_in_extent: is_within(&features.extent_of(feature), &known.extent),
    })
}

/// Whether steps of two features meet near a core; none where that takes many looks.
fn meet_near(a: &InPair, b: &InPair, core: &Core) -> Option<bool> {
    if b.near.saturating_mul(size(a.rings)) <= LOOKS_MAX {
        return Some(rings_meet(b.rings, a.rings, core));
    }
    if a.near.saturating_mul(size(b.rings)) <= LOOKS_MAX {
        return Some(rings_meet(a.rings, b.rings, core));
    }
    None
}

/// Two features that both have steps near a core.
fn both_near(a: &InPair, b: &InPair, core: &Core) -> Meeting {
    match meet_near(a, b, core) {
        Some(true) if a.known.is_plain && b.known.is_plain => Meeting::Met,
        Some(false) if a.is_in_extent && b.is_in_extent => unmet(a.rings, b.rings),
        _ => Meeting::Unknown,
    }
}

/// What the steps of two features say, by what the boxes of their boundaries have in common.
pub(crate) fn met_by_steps(
    features: &Features,
    a: (usize, &Known),
    b: (usize, &Known),
    core: &Core,
) -> Meeting {
    let (Some(first), Some(second)) = (
        in_pair(features, a.0, a.1, core),
        in_pair(features, b.0, b.1, core),
    ) else {
        return Meeting::Unknown;
    };
    if second.near == 0 {
        let is_all = is_within(&a.1.extent, core);
        return by_corner(second.rings, core, is_all, Meeting::FirstInside);
    }
    if first.near == 0 {
        let is_all = is_within(&b.1.extent, core);
        return by_corner(first.rings, core, is_all, Meeting::SecondInside);
    }
    both_near(&first, &second, core)
}
