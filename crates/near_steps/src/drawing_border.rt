//! Drawing the border of a core.
ghost use Rattle.std.specs.Prelude.{◌≡◌, ◌++◌, OnOk};
ghost use Rattle.overlay_terms.specs.Plane.{ring_segments};
ghost use Rattle.near_steps.specs.Drawn.{border_of, marks, HasMore, IsBorder};

use crate::core_box::{NearCore, point_at};
use crate::drawing_rings::add_step;
use arrange::MarkedSeg;
use std::alloc::AllocError;

/// Adds the border of a core, seen from its low corner.
pub fn draw_border(
    marked: &mut Vec<MarkedSeg>,
    layer: u8,
    core: &NearCore,
) -> Result<(), AllocError>
    ensures border { OnOk result (marked.new.items ≡ marked.old.items ++ marks layer (ring_segments (border_of core.now))) }
    ensures taken { OnOk result (IsBorder core.now) }
    ensures kept { HasMore marked.old.items marked.new.items }
{
    core.known();
    let (wide, high) = core.size();
    let low = point_at(0, 0);
    let right = point_at(wide, 0);
    let far = point_at(wide, high);
    let over = point_at(0, high);
    add_step(marked, layer, low, right)?;
    add_step(marked, layer, right, far)?;
    add_step(marked, layer, far, over)?;
    add_step(marked, layer, over, low)
}
