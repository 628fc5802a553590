//! Points one above the other, at equal steps.
ghost use Rattle.std.specs.Prelude.{◌≤ℤ◌, pos};
ghost use Rattle.overlay_terms.specs.Plane.{InRange};

/// The points (x, y), (x, y + step), (x, y + 2 * step), and so on.
#[derive(Clone, Copy, Debug)]
pub struct Rise {
    pub x: i64,
    pub y: i64,
    pub step: i64,
    pub ghost x_small: { InRange x },
    pub ghost y_small: { InRange y },
    pub ghost step_low: { pos 1 ≤ℤ step },
    pub ghost step_high: { step ≤ℤ pos 2097152 },
}
