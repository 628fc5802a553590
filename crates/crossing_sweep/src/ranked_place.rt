//! Named places with their ranks.
ghost use Rattle.exact_point.specs.Place.{place};
ghost use Rattle.crossing_sweep.specs.Rank.{IsRank};

use crate::rank::ranked_cmp;
use exact_point::{NearPoint, PointName};
use std::cmp::Ordering;

/// A place with a name for it and its rank. The order is that of the places alone.
#[derive(Clone, Copy, Debug)]
pub(crate) struct RankedPlace {
    pub name: PointName,
    pub rank: i64,
    pub at: NearPoint,
    pub ghost ranked: { ∥ IsRank rank (place at) ∥₁ },
}

impl PartialEq for RankedPlace {
    ghost use Rattle.crossing_sweep.specs.RankedPlace.{same_ranked, same_ranked_laws};

    ghost eq = { same_ranked };

    ghost laws = { same_ranked_laws };

    fn eq(&self, other: &RankedPlace) -> bool {
        self.cmp(other) == Ordering::Equal
    }
}

impl Eq for RankedPlace {
    ghost use Rattle.crossing_sweep.specs.RankedPlace.{same_ranked_equiv};

    ghost laws = { same_ranked_equiv };
}

impl PartialOrd for RankedPlace {
    ghost use Rattle.crossing_sweep.specs.RankedPlace.{ranked_cmp, ranked_po};
    ghost use Rattle.std.specs.Ordering.{as_partial_cmp};

    ghost partial_cmp = { as_partial_cmp ranked_cmp };

    ghost laws = { ranked_po };

    fn partial_cmp(&self, other: &RankedPlace) -> Option<Ordering> {
        Some(self.cmp(other))
    }
}

impl Ord for RankedPlace {
    ghost use Rattle.crossing_sweep.specs.RankedPlace.{ranked_cmp, ranked_total};
    ghost use Rattle.std.specs.Prelude.{refl};

    ghost cmp = { ranked_cmp };

    ghost total = { ranked_total };

    ghost matches_partial_cmp = { λ p q. refl };

    ghost matches_eq = { λ p q. refl };

    fn cmp(&self, other: &RankedPlace) -> Ordering {
        ranked_cmp(self.rank, &self.at, other.rank, &other.at)
    }
}
