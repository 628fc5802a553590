//! Points in homogeneous coordinates.
ghost use Rattle.std.specs.Prelude.{◌≡◌, pos, neg_ℤ, ◌≤ℤ◌, ◌*ℤ◌};
ghost use Rattle.overlay_terms.specs.Plane.{coordinate_max, denominator_max};

use crate::arithmetic::product;
use plane_base::Pt;
use std::cmp::Ordering;

/// The point (x / w, y / w).
#[derive(Clone, Copy, Debug)]
pub struct HPoint {
    pub x: i128,
    pub y: i128,
    pub w: i128,
    pub ghost w_low: { pos 1 ≤ℤ w },
    pub ghost w_high: { w ≤ℤ pos denominator_max },
    pub ghost x_low: { neg_ℤ (pos coordinate_max *ℤ w) ≤ℤ x },
    pub ghost x_high: { x ≤ℤ (pos coordinate_max *ℤ w) },
    pub ghost y_low: { neg_ℤ (pos coordinate_max *ℤ w) ≤ℤ y },
    pub ghost y_high: { y ≤ℤ (pos coordinate_max *ℤ w) },
}

impl HPoint {
    ghost use Rattle.exact_point.specs.Place.{place};
    ghost use Rattle.overlay_terms.specs.Plane.{whole};

    /// A point with whole coordinates.
    pub fn of(p: Pt) -> HPoint
        ensures { place result ≡ whole p }
    {
        HPoint {
            x: i128::from(p.x()),
            y: i128::from(p.y()),
            w: 1,
        }
    }
}

impl PartialEq for HPoint {
    ghost use Rattle.exact_point.specs.Place.{same_hpoint, same_hpoint_laws};

    ghost eq = { same_hpoint };

    ghost laws = { same_hpoint_laws };

    fn eq(&self, other: &HPoint) -> bool {
        self.cmp(other) == Ordering::Equal
    }
}

impl Eq for HPoint {
    ghost use Rattle.exact_point.specs.Place.{same_hpoint_equiv};

    ghost laws = { same_hpoint_equiv };
}

impl PartialOrd for HPoint {
    ghost use Rattle.exact_point.specs.Place.{hpoint_cmp, hpoint_po};
    ghost use Rattle.std.specs.Ordering.{as_partial_cmp};

    ghost partial_cmp = { as_partial_cmp hpoint_cmp };

    ghost laws = { hpoint_po };

    fn partial_cmp(&self, other: &HPoint) -> Option<Ordering> {
        Some(self.cmp(other))
    }
}

impl Ord for HPoint {
    ghost use Rattle.exact_point.specs.Place.{hpoint_cmp, hpoint_cmp_total};
    ghost use Rattle.std.specs.Prelude.{refl};

    ghost cmp = { hpoint_cmp };

    ghost total = { hpoint_cmp_total };

    ghost matches_partial_cmp = { λ p q. refl };

    ghost matches_eq = { λ p q. refl };

    fn cmp(&self, other: &HPoint) -> Ordering {
        if self.w == other.w {
            return self.x.cmp(&other.x).then(self.y.cmp(&other.y));
        }
        let x = product(self.x, other.w).cmp(&product(other.x, self.w));
        if x.is_ne() {
            return x;
        }
        product(self.y, other.w).cmp(&product(other.y, self.w))
    }
}
