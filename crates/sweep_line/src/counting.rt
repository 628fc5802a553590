//! Labels by counting over all segments: the plain program beside the sweep.
ghost use Rattle.std.specs.Prelude.{◌≡◌, ℕ, ◌<◌, map, All, IfOk, if◌then◌else◌, not, ◌==◌};
ghost use Rattle.overlay_terms.specs.Layers.{layers_max};
ghost use Rattle.overlay_terms.specs.Tiles.{below_bits, midpoint};
ghost use Rattle.overlay_terms.specs.Trees.{mask_bits};
ghost use Rattle.exact_point.specs.Place.{place};
ghost use Rattle.exact_point.specs.PlaceOf.{place_of};
ghost use Rattle.exact_point.specs.PointName.{HasPlace};
ghost use Rattle.arrange.specs.Arrangement.{ArePieces};
ghost use Rattle.arrange.specs.Marked.{marked_of};
ghost use Rattle.sweep_line.specs.Label.{AreLabels};

use crate::labelled::Labelled;
use arrange::{Elementary, MarkedSeg, TileInput};
use exact_point::{HPoint, below_middle};
use std::alloc::{AllocError, Global};

/// The pieces of an input with their sides, in the order of the pieces.
pub fn label_by_count(
    alloc: Global,
    input: &TileInput,
    pieces: Vec<Elementary>,
) -> Result<Vec<Labelled>, AllocError>
    requires { ArePieces input.now pieces.items }
    ensures { IfOk result (λ labels. AreLabels input.now pieces.items labels.items) }
{
    let mut labels = Vec::new(alloc);
    for piece in &pieces {
        let under = under_mask(piece, input.marked());
        labels.push(Labelled {
            piece: *piece,
            under,
            over: under ^ piece.mask,
        })?;
    }
    Ok(labels)
}

/// A bit for each base layer that has an odd number of segments below the middle of a piece.
fn under_mask(piece: &Elementary, marked: &[MarkedSeg]) -> u32
    requires from_named { HasPlace piece.now.from }
    requires to_named { HasPlace piece.now.to }
    requires layers { All (λ m. m.layer < layers_max) marked.now }
    ensures { (k : ℕ) → k < layers_max → mask_bits result k
        ≡ below_bits (map marked_of marked.now) (midpoint (place_of piece.now.from) (place_of piece.now.to)) k }
{
    mask_below(marked, &piece.from.known_point(), &piece.to.known_point())
}

/// The same of the middle of two points.
fn mask_below(marked: &[MarkedSeg], from: &HPoint, to: &HPoint) -> u32
    requires { All (λ m. m.layer < layers_max) marked.now }
    ensures { (k : ℕ) → k < layers_max → mask_bits result k
        ≡ below_bits (map marked_of marked.now) (midpoint (place from.now) (place to.now)) k }
{
    let mut mask = 0;
    for m in marked {
        if below_middle(&m.seg, from, to) {
            mask = toggled(mask, m.layer);
        }
    }
    mask
}

/// A mask with one bit changed.
fn toggled(mask: u32, layer: u8) -> u32
    requires { layer < layers_max }
    ensures { (k : ℕ) → mask_bits result k ≡ (if layer == k then not (mask_bits mask k) else mask_bits mask k) }
{
    mask ^ (1 << layer)
}
