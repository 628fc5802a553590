//! Places of the arrangement with their names.
use exact_point::{HPoint, PointName};
use plane_base::Pt;
use smallvec::SmallVec;
use std::cmp::Ordering;

/// The places on one segment: mostly few, and then in no memory of their own.
pub(crate) type Places = SmallVec<NamedPlace, 8>;

/// A place and a name for it. The order is that of the places alone.
#[derive(Clone, Copy, Debug)]
pub struct NamedPlace {
    pub name: PointName,
    pub at: HPoint,
}

impl PartialEq for NamedPlace {
    ghost use Rattle.arrange.specs.NamedPlaces.{same_named, same_named_laws};

    ghost eq = { same_named };

    ghost laws = { same_named_laws };

    fn eq(&self, other: &NamedPlace) -> bool {
        self.cmp(other) == Ordering::Equal
    }
}

impl Eq for NamedPlace {
    ghost use Rattle.arrange.specs.NamedPlaces.{same_named_equiv};

    ghost laws = { same_named_equiv };
}

impl PartialOrd for NamedPlace {
    ghost use Rattle.arrange.specs.NamedPlaces.{named_cmp, named_po};
    ghost use Rattle.std.specs.Ordering.{as_partial_cmp};

    ghost partial_cmp = { as_partial_cmp named_cmp };

    ghost laws = { named_po };

    fn partial_cmp(&self, other: &NamedPlace) -> Option<Ordering> {
        Some(self.cmp(other))
    }
}

impl Ord for NamedPlace {
    ghost use Rattle.arrange.specs.NamedPlaces.{named_cmp, named_total};
    ghost use Rattle.std.specs.Prelude.{refl};

    ghost cmp = { named_cmp };

    ghost total = { named_total };

    ghost matches_partial_cmp = { λ p q. refl };

    ghost matches_eq = { λ p q. refl };

    fn cmp(&self, other: &NamedPlace) -> Ordering {
        self.at.cmp(&other.at)
    }
}

impl Default for NamedPlace {
    ghost use Rattle.std.specs.Prelude.{◌≡◌};
    ghost use Rattle.exact_point.specs.PlaceOf.{place_of};
    ghost use Rattle.arrange.specs.NamedPlaces.{spot};

    ghost is_default = { λ z. spot z ≡ place_of z.name };

    /// The middle of the plane.
    fn default() -> NamedPlace {
        let middle = Pt::new(0, 0).unwrap();
        NamedPlace {
            name: PointName::Vertex(middle),
            at: HPoint::of(middle),
        }
    }
}
