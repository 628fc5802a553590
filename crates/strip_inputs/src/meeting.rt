//! Segments that have a point in a strip.
ghost use Rattle.std.specs.Prelude.{◌≡◌};
ghost use Rattle.overlay_terms.specs.TileLaws.{IsProper};
ghost use Rattle.strip_inputs.specs.Strips.{meets};

use crossing_sweep::Strip;
use plane_base::Seg;

/// Whether a segment has a point in a strip.
pub(crate) fn meets(strip: Strip, seg: Seg) -> bool
    ensures value { result ≡ meets strip seg }
    ensures proper { IsProper seg }
{
    // Eager, so that one equation says all: neither side costs more than a comparison.
    let after = strip.first().border() <= seg.right().x();
    let before = seg.left().x() < strip.last().end();
    after & before
}
