//! Upright boxes. One whose low end lies beyond its high end holds nothing.
ghost use Rattle.std.specs.Prelude.{◌≡◌, ◌≤ℤ◌, true};
ghost use Rattle.near_steps.specs.Cores.{box_of};
ghost use Rattle.feature_windows.specs.Parts.{IsCut, IsLong};

use block_reading::{Core, FarPoint};

/// The box that holds nothing.
pub fn nothing() -> Core {
    Core {
        low_x: 1,
        high_x: 0,
        low_y: 1,
        high_y: 0,
    }
}

/// Whether a box holds nothing.
pub fn is_nothing(e: &Core) -> bool {
    e.low_x > e.high_x || e.low_y > e.high_y
}

/// The lesser number.
fn least(a: i64, b: i64) -> i64 {
    if a < b { a } else { b }
}

/// The greater number.
fn most(a: i64, b: i64) -> i64 {
    if a < b { b } else { a }
}

/// The box around two boxes.
pub fn around(a: &Core, b: &Core) -> Core {
    if is_nothing(a) {
        return *b;
    }
    if is_nothing(b) {
        return *a;
    }
    Core {
        low_x: least(a.low_x, b.low_x),
        high_x: most(a.high_x, b.high_x),
        low_y: least(a.low_y, b.low_y),
        high_y: most(a.high_y, b.high_y),
    }
}

/// The box around points.
pub(crate) fn extent(points: &[FarPoint]) -> Core {
    let mut e = nothing();
    for p in points {
        let at = Core {
            low_x: p.x,
            high_x: p.x,
            low_y: p.y,
            high_y: p.y,
        };
        e = around(&e, &at);
    }
    e
}

/// The part that two boxes have in common, which may hold nothing.
pub fn common(a: &Core, b: &Core) -> Core {
    Core {
        low_x: most(a.low_x, b.low_x),
        high_x: least(a.high_x, b.high_x),
        low_y: most(a.low_y, b.low_y),
        high_y: least(a.high_y, b.high_y),
    }
}

/// Whether two boxes have a point in common.
pub fn meet(a: &Core, b: &Core) -> bool {
    !is_nothing(a) && !is_nothing(b) && !is_nothing(&common(a, b))
}

/// Whether a box lies within another, borders included.
pub fn is_within(a: &Core, b: &Core) -> bool {
    b.low_x <= a.low_x && a.high_x <= b.high_x && b.low_y <= a.low_y && a.high_y <= b.high_y
}

/// The middle of a span.
fn middle(low: i64, high: i64) -> i64
    requires { low ≤ℤ high }
    ensures after { low ≤ℤ result }
    ensures before { result ≤ℤ high }
{
    low.saturating_add(high.saturating_sub(low) / 2)
}

/// How wide a box is, or how high.
pub(crate) fn size(core: &Core, across: bool) -> i64 {
    if across {
        core.high_x.saturating_sub(core.low_x)
    } else {
        core.high_y.saturating_sub(core.low_y)
    }
}

/// Whether a box is two wide, or high, at least.
pub(crate) fn is_long(core: &Core, across: bool) -> bool
    ensures { result ≡ true → IsLong across core.now }
{
    if across {
        core.low_x < core.high_x && core.low_x.saturating_add(1) < core.high_x
    } else {
        core.low_y < core.high_y && core.low_y.saturating_add(1) < core.high_y
    }
}

/// A box in halves, by x or by y.
pub(crate) fn halves(core: &Core, across: bool) -> (Core, Core)
    requires { IsLong across core.now }
    ensures { IsCut (box_of core.now) (box_of result.0) (box_of result.1) }
{
    if across {
        halves_across(core)
    } else {
        halves_along(core)
    }
}

/// A box in halves by x.
fn halves_across(core: &Core) -> (Core, Core)
    requires { core.now.low_x ≤ℤ core.now.high_x }
    ensures { IsCut (box_of core.now) (box_of result.0) (box_of result.1) }
{
    let x = middle(core.low_x, core.high_x);
    let low = Core {
        low_x: core.low_x,
        high_x: x,
        low_y: core.low_y,
        high_y: core.high_y,
    };
    let high = Core {
        low_x: x,
        high_x: core.high_x,
        low_y: core.low_y,
        high_y: core.high_y,
    };
    (low, high)
}

/// A box in halves by y.
fn halves_along(core: &Core) -> (Core, Core)
    requires { core.now.low_y ≤ℤ core.now.high_y }
    ensures { IsCut (box_of core.now) (box_of result.0) (box_of result.1) }
{
    let y = middle(core.low_y, core.high_y);
    let low = Core {
        low_x: core.low_x,
        high_x: core.high_x,
        low_y: core.low_y,
        high_y: y,
    };
    let high = Core {
        low_x: core.low_x,
        high_x: core.high_x,
        low_y: y,
        high_y: core.high_y,
    };
    (low, high)
}
