//! The sides of a core.
ghost use Rattle.std.specs.Prelude.{◌≡◌};
ghost use Rattle.near_steps.specs.Cores.{box_of};
ghost use Rattle.near_steps.specs.Thinned.{common, sides_of};

use block_reading::{Core, FarPoint};

/// Off which sides of a core a point lies.
#[derive(Clone, Copy)]
pub(crate) struct Sides {
    pub(crate) left: bool,
    pub(crate) right: bool,
    pub(crate) under: bool,
    pub(crate) over: bool,
}

/// Off which sides of a core a point lies.
pub(crate) fn sides_of(core: &Core, p: FarPoint) -> Sides
    ensures { result ≡ sides_of (box_of core.now) p }
{
    Sides {
        left: p.x < core.low_x,
        right: core.high_x < p.x,
        under: p.y < core.low_y,
        over: core.high_y < p.y,
    }
}

/// Whether three points lie off the core on one side.
pub(crate) fn have_common(a: Sides, b: Sides, c: Sides) -> bool
    ensures { result ≡ common a b c }
{
    // Eager, as these are tests of bits.
    let across = a.left & b.left & c.left | a.right & b.right & c.right;
    let along = a.under & b.under & c.under | a.over & b.over & c.over;
    across | along
}
