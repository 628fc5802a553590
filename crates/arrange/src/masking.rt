//! The base layers over a piece.
ghost use Rattle.std.specs.Prelude.{◌≡◌, ◌<◌, ℕ, All};
ghost use Rattle.overlay_terms.specs.Layers.{layers_max};
ghost use Rattle.overlay_terms.specs.Trees.{mask_bits};
ghost use Rattle.exact_point.specs.Place.{place};
ghost use Rattle.arrange.specs.Masks.{holding_bits};

use crate::marked_seg::MarkedSeg;
use exact_point::{HPoint, on};

/// A bit for each base layer that has an odd number of segments that hold both ends of a piece.
pub(crate) fn mask_over(marked: &[MarkedSeg], from: &HPoint, to: &HPoint) -> u32
    requires { All (λ m. m.layer < layers_max) marked.now }
    ensures { (k : ℕ) → k < layers_max
        → mask_bits result k ≡ holding_bits marked.now (place from.now) (place to.now) k }
{
    let mut mask = 0u32;
    for m in marked {
        let from_on = on(&m.seg, from);
        let to_on = on(&m.seg, to);
        // Eager, so that a segment makes one case: most hold both ends or fail at the first comparison.
        if from_on & to_on {
            mask ^= 1 << m.layer;
        }
    }
    mask
}
