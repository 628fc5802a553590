//! Windows of maps.
ghost use Rattle.std.specs.Prelude.{◌≡◌, ◌≤◌, ◌⊎◌, IfOk, IfErr, IfSome, IsErrOf, IsOkUnless, None};
ghost use Rattle.overlay_terms.specs.Plane.{ring_step_count, steps_max};
ghost use Rattle.map_window.specs.Window.{Shows, NothingBeyond, NothingOff};
ghost use Rattle.map_window.specs.Fault.{window_fault};
ghost use Rattle.plane_base.specs.BaseLayer.{first_ring_fault};
ghost use Rattle.plane_base.specs.declared.fault.PlaneFault.TheVariants.{TooManySegments};

use crate::drawing::rings_drawn;
use crate::far::{FarBox, FarPt, FarRing};
use crate::fault::WindowFault;
use crate::fitting::fault_of;
use plane_base::{BaseLayer, Ring};
use std::alloc::Global;

/// What is seen of a map's rings from within the core, as a base layer of the plane that has this origin. Nothing of
/// the layer lies off the frame.
pub fn windowed(
    alloc: Global,
    rings: &[FarRing],
    core: &FarBox,
    frame: &FarBox,
    origin: FarPt,
) -> Result<BaseLayer, WindowFault>
    ensures shows { IfOk result (λ layer. Shows core.now origin rings.now layer) }
    ensures beyond { IfOk result (λ layer. NothingBeyond core.now origin rings.now layer) }
    ensures off { IfOk result (λ layer. NothingOff frame.now origin layer) }
    ensures refused { IfSome (window_fault core.now frame.now origin rings.now) (IsErrOf result) }
    ensures others { window_fault core.now frame.now origin rings.now ≡ None
        → IfErr result (λ e. (e ≡ WindowFault.OutOfMemory) ⊎ (e ≡ WindowFault.Plane TooManySegments)) }
    ensures accepted { window_fault core.now frame.now origin rings.now ≡ None → ring_step_count rings.now ≤ steps_max
        → IsOkUnless result WindowFault.OutOfMemory }
{
    if let Some(fault) = fault_of(rings, core, frame, origin) {
        return Err(fault);
    }
    let drawn = rings_drawn(alloc, rings, core, frame, origin)?;
    layer_of(alloc, drawn)
}

/// The base layer of rings that are closed and long enough.
fn layer_of(alloc: Global, drawn: Vec<Ring>) -> Result<BaseLayer, WindowFault>
    requires { first_ring_fault 0 drawn.items ≡ None }
    ensures ok { IfOk result (λ layer. layer ≡ drawn.items) }
    ensures err { IfErr result (λ e. (e ≡ WindowFault.OutOfMemory) ⊎ (e ≡ WindowFault.Plane TooManySegments)) }
    ensures few { ring_step_count drawn.items ≤ steps_max → IsOkUnless result WindowFault.OutOfMemory }
{
    match BaseLayer::new(alloc, drawn) {
        Ok(layer) => Ok(layer),
        Err(fault) => Err(WindowFault::from(fault)),
    }
}
