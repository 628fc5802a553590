//! The members of a sweep's status.
ghost use Rattle.std.specs.Prelude.{◌≡◌};
ghost use Rattle.std.specs.declared.cmp.Ordering.TheVariants.{Less};
ghost use Rattle.overlay_terms.specs.Plane.{whole_cmp};

use arrange::unit::Unit;
use exact_point::direction_cmp;
use std::cmp::Ordering;

/// A unit that goes on after the sweep's place, with the number of the last node on it, a bit for
/// each base layer that holds just over it, what the layer is there, and whether the piece that
/// begins there is one of the boundary. The order is by direction, the vertical one last.
#[derive(Clone, Copy, Debug)]
pub(crate) struct Member {
    pub unit: Unit,
    pub begin: usize,
    pub over: u32,
    pub value: bool,
    pub differs: bool,
    pub ghost ahead: { whole_cmp unit.seg.left unit.seg.right ≡ Less },
}

impl PartialEq for Member {
    ghost use Rattle.crossing_sweep.specs.Member.{same_member, same_member_laws};

    ghost eq = { same_member };

    ghost laws = { same_member_laws };

    fn eq(&self, other: &Member) -> bool {
        self.cmp(other) == Ordering::Equal
    }
}

impl Eq for Member {
    ghost use Rattle.crossing_sweep.specs.Member.{same_member_equiv};

    ghost laws = { same_member_equiv };
}

impl PartialOrd for Member {
    ghost use Rattle.crossing_sweep.specs.Member.{member_cmp, member_po};
    ghost use Rattle.std.specs.Ordering.{as_partial_cmp};

    ghost partial_cmp = { as_partial_cmp member_cmp };

    ghost laws = { member_po };

    fn partial_cmp(&self, other: &Member) -> Option<Ordering> {
        Some(self.cmp(other))
    }
}

impl Ord for Member {
    ghost use Rattle.crossing_sweep.specs.Member.{member_cmp, member_total};
    ghost use Rattle.std.specs.Prelude.{refl};

    ghost cmp = { member_cmp };

    ghost total = { member_total };

    ghost matches_partial_cmp = { λ p q. refl };

    ghost matches_eq = { λ p q. refl };

    fn cmp(&self, other: &Member) -> Ordering {
        direction_cmp(&self.unit.seg, &other.unit.seg)
    }
}
