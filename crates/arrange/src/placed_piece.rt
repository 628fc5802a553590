//! Pieces with the places where they begin.
ghost use Rattle.std.specs.Prelude.{◌≡◌};
ghost use Rattle.std.specs.declared.cmp.Ordering.TheVariants.{Less};
ghost use Rattle.overlay_terms.specs.Plane.{whole_cmp};

use crate::piece::Elementary;
use exact_point::{HPoint, direction_cmp};
use std::cmp::Ordering;

/// A piece and the place of its left end. The order is by that place, then by direction, the
/// vertical one last.
#[derive(Clone, Copy, Debug)]
pub(crate) struct PlacedPiece {
    pub(crate) at: HPoint,
    pub(crate) piece: Elementary,
    pub(crate) ghost ahead: { whole_cmp piece.support.left piece.support.right ≡ Less },
}

impl PartialEq for PlacedPiece {
    ghost use Rattle.arrange.specs.PlacedPieces.{same_placed, same_placed_laws};

    ghost eq = { same_placed };

    ghost laws = { same_placed_laws };

    fn eq(&self, other: &PlacedPiece) -> bool {
        self.cmp(other) == Ordering::Equal
    }
}

impl Eq for PlacedPiece {
    ghost use Rattle.arrange.specs.PlacedPieces.{same_placed_equiv};

    ghost laws = { same_placed_equiv };
}

impl PartialOrd for PlacedPiece {
    ghost use Rattle.arrange.specs.PlacedPieces.{placed_cmp, placed_po};
    ghost use Rattle.std.specs.Ordering.{as_partial_cmp};

    ghost partial_cmp = { as_partial_cmp placed_cmp };

    ghost laws = { placed_po };

    fn partial_cmp(&self, other: &PlacedPiece) -> Option<Ordering> {
        Some(self.cmp(other))
    }
}

impl Ord for PlacedPiece {
    ghost use Rattle.arrange.specs.PlacedPieces.{placed_cmp, placed_total};
    ghost use Rattle.std.specs.Prelude.{refl};

    ghost cmp = { placed_cmp };

    ghost total = { placed_total };

    ghost matches_partial_cmp = { λ p q. refl };

    ghost matches_eq = { λ p q. refl };

    fn cmp(&self, other: &PlacedPiece) -> Ordering {
        let by_place = self.at.cmp(&other.at);
        if by_place.is_ne() {
            return by_place;
        }
        direction_cmp(&self.piece.support, &other.piece.support)
    }
}
