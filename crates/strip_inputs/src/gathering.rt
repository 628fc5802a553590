//! The segments of a base layer that have a point in a strip.
ghost use Rattle.std.specs.Prelude.{◌≡◌, ◌++◌, None, map, All, OnOk};
ghost use Rattle.overlay_terms.specs.Plane.{segments_of};
ghost use Rattle.overlay_terms.specs.TileLaws.{IsProper};
ghost use Rattle.plane_base.specs.BaseLayer.{rings_fault};
ghost use Rattle.arrange.specs.Marked.{marked_of, marked_by};
ghost use Rattle.strip_inputs.specs.Strips.{kept_in_strip};

use crate::meeting::meets;
use arrange::MarkedSeg;
use crossing_sweep::Strip;
use plane_base::BaseLayer;
use std::alloc::AllocError;

/// Adds the segments of a base layer that have a point in a strip, with the layer's number.
pub(crate) fn add_segments(
    marked: &mut Vec<MarkedSeg>,
    strip: Strip,
    layer: u8,
    base: &BaseLayer,
) -> Result<(), AllocError>
    ensures marked { OnOk result
        (map marked_of marked.new.items
        ≡ map marked_of marked.old.items ++ kept_in_strip strip (marked_by layer base.now)) }
    ensures proper { OnOk result (All IsProper (segments_of base.now)) }
    ensures valid { rings_fault base.now ≡ None }
{
    for seg in base.segs() {
        if meets(strip, *seg) {
            marked.push(MarkedSeg { layer, seg: *seg })?;
        }
    }
    Ok(())
}
