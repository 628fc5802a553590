//! Units with the places where a pass over a strip meets them first.
ghost use Rattle.std.specs.Prelude.{◌≡◌, pos};
ghost use Rattle.std.specs.Ordering.{int_cmp};
ghost use Rattle.std.specs.declared.cmp.Ordering.TheVariants.{Less};
ghost use Rattle.overlay_terms.specs.Plane.{whole_cmp};
ghost use Rattle.exact_point.specs.Crossing.{turn_of};
ghost use Rattle.exact_point.specs.Place.{place};
ghost use Rattle.crossing_sweep.specs.Rank.{IsRank};

use crate::rank::ranked_cmp;
use arrange::unit::Unit;
use exact_point::{NearPoint, direction_cmp};
use plane_base::Seg;
use std::cmp::Ordering;

/// A unit and the first place of a closed strip on it, with its rank. The order is by that place, then by
/// direction, the vertical one first.
#[derive(Clone, Copy, Debug)]
pub(crate) struct Start {
    pub at: NearPoint,
    pub rank: i64,
    pub unit: Unit,
    pub ghost ranked: { ∥ IsRank rank (place at) ∥₁ },
    pub ghost ahead: { whole_cmp unit.seg.left unit.seg.right ≡ Less },
}

impl PartialEq for Start {
    ghost use Rattle.crossing_sweep.specs.Start.{same_start, same_start_laws};

    ghost eq = { same_start };

    ghost laws = { same_start_laws };

    fn eq(&self, other: &Start) -> bool {
        self.cmp(other) == Ordering::Equal
    }
}

impl Eq for Start {
    ghost use Rattle.crossing_sweep.specs.Start.{same_start_equiv};

    ghost laws = { same_start_equiv };
}

impl PartialOrd for Start {
    ghost use Rattle.crossing_sweep.specs.Start.{start_cmp, start_po};
    ghost use Rattle.std.specs.Ordering.{as_partial_cmp};

    ghost partial_cmp = { as_partial_cmp start_cmp };

    ghost laws = { start_po };

    fn partial_cmp(&self, other: &Start) -> Option<Ordering> {
        Some(self.cmp(other))
    }
}

impl Ord for Start {
    ghost use Rattle.crossing_sweep.specs.Start.{start_cmp, start_total};
    ghost use Rattle.std.specs.Prelude.{refl};

    ghost cmp = { start_cmp };

    ghost total = { start_total };

    ghost matches_partial_cmp = { λ p q. refl };

    ghost matches_eq = { λ p q. refl };

    fn cmp(&self, other: &Start) -> Ordering {
        let by_place = ranked_cmp(self.rank, &self.at, other.rank, &other.at);
        if by_place.is_ne() {
            return by_place;
        }
        start_direction_cmp(&self.unit.seg, &other.unit.seg)
    }
}

/// The order of two segments by direction, the vertical one first. It is kept out of the loops of sorts.
#[inline(never)]
fn start_direction_cmp(a: &Seg, b: &Seg) -> Ordering
    ensures { result ≡ int_cmp (pos 0) (turn_of b.now a.now) }
{
    direction_cmp(b, a)
}
