//! Steps of lines.
ghost use Rattle.std.specs.Prelude.{◌≡◌};
ghost use Rattle.near_steps.specs.Cores.{box_of};
ghost use Rattle.near_steps.specs.Thinned.{sides_of};
ghost use Rattle.near_steps.specs.Drawn.{IsSided};

use crate::core_box::NearCore;
use crate::sides::{Sides, sides_of};
use block_reading::{Core, FarPoint};

/// A point of a line, and off which sides of the core it lies.
#[derive(Clone, Copy)]
pub(crate) struct Spot {
    pub(crate) at: FarPoint,
    pub(crate) off: Sides,
}

/// The last two points of a line.
#[derive(Clone, Copy)]
pub(crate) struct Step {
    pub(crate) from: Spot,
    pub(crate) to: Spot,
}

/// A point with its sides.
pub(crate) fn spot_of(core: &Core, p: FarPoint) -> Spot
    ensures at { result.at ≡ p }
    ensures off { result.off ≡ sides_of (box_of core.now) p }
{
    Spot {
        at: p,
        off: sides_of(core, p),
    }
}

/// Two points with their sides.
pub(crate) fn step_of(core: &Core, from: FarPoint, to: FarPoint) -> Step
    ensures from { result.from.at ≡ from }
    ensures to { result.to.at ≡ to }
    ensures sided { IsSided (box_of core.now) result }
{
    Step {
        from: spot_of(core, from),
        to: spot_of(core, to),
    }
}

impl NearCore {
    /// A point with its sides.
    pub(crate) fn spot(&self, p: FarPoint) -> Spot
        ensures at { result.at ≡ p }
        ensures off { result.off ≡ sides_of self.now p }
    {
        spot_of(&self.core(), p)
    }

    /// Two points with their sides.
    pub(crate) fn step(&self, from: FarPoint, to: FarPoint) -> Step
        ensures from { result.from.at ≡ from }
        ensures to { result.to.at ≡ to }
        ensures sided { IsSided self.now result }
    {
        step_of(&self.core(), from, to)
    }
}
