//! The sides of a core.
ghost use Rattle.std.specs.Prelude.{◌≡◌, true, All};
ghost use Rattle.near_steps.specs.Cores.{box_of};
ghost use Rattle.near_steps.specs.Drawn.{LiesOff};
ghost use Rattle.feature_windows.specs.Layers.{lies, side_of};
ghost use Rattle.map_window.specs.Window.{Lies};

use block_reading::{Core, FarPoint};

/// A side of a core.
#[derive(Clone, Copy)]
pub(crate) enum CoreSide {
    Left,
    Right,
    Under,
    Over,
}

/// Whether a point lies off a core on a side.
fn lies(core: &Core, side: CoreSide, p: &FarPoint) -> bool
    ensures { result ≡ lies core.now side p.now }
{
    match side {
        CoreSide::Left => p.x < core.low_x,
        CoreSide::Right => core.high_x < p.x,
        CoreSide::Under => p.y < core.low_y,
        CoreSide::Over => core.high_y < p.y,
    }
}

/// Whether points all lie off a core on a side.
fn all_lie(core: &Core, side: CoreSide, points: &[FarPoint]) -> bool
    ensures { result ≡ true → All (Lies (box_of core.now) (side_of side)) points.now }
{
    for p in points {
        if !lies(core, side, p) {
            return false;
        }
    }
    true
}

/// Whether points all lie off a core on one side.
pub(crate) fn lie_off(core: &Core, points: &[FarPoint]) -> bool
    ensures { result ≡ true → LiesOff (box_of core.now) points.now }
{
    all_lie(core, CoreSide::Left, points)
        || all_lie(core, CoreSide::Right, points)
        || all_lie(core, CoreSide::Under, points)
        || all_lie(core, CoreSide::Over, points)
}
