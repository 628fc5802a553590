//! Cores that the plane holds.
ghost use Rattle.std.specs.Prelude.{◌≡◌, ◌+ℤ◌, ◌-ℤ◌, ◌↔◌, pos, int_le, ◌&&◌, true, IfSome, IsSome, IsTrue};
ghost use Rattle.overlay_terms.specs.Plane.{InRange, coordinate_max};
ghost use Rattle.block_reading.specs.Jobs.{is_near};
ghost use Rattle.map_window.specs.Window.{Box};
ghost use Rattle.map_window.specs.Drawn.{clamped, placed, is_held};
ghost use Rattle.near_steps.specs.Cores.{box_of, fits, is_close_span, low_of, plane_of};

use block_reading::{Core, FarPoint};
use plane_base::{COORD_MAX, Pt};
use std::marker::Model;

/// The greatest coordinate of a block, 2^41.
const FAR_MAX: i64 = 2199023255552;

/// A core that is less than 2^20 wide and high, so that the plane goes farther on each side.
#[derive(Clone, Copy, Debug)]
pub struct NearCore {
    low_x: i64,
    high_x: i64,
    low_y: i64,
    high_y: i64,
}

impl Model for NearCore {
    ghost Value = { Box };

    ghost view = { λ c. record { low_x = c.low_x; high_x = c.high_x; low_y = c.low_y; high_y = c.high_y } };

    ghost invariant = { λ c. fits (record { low_x = c.low_x; high_x = c.high_x; low_y = c.low_y; high_y = c.high_y }) ≡ true };

    ghost inverse = { λ c. record { low_x = c.low_x; high_x = c.high_x; low_y = c.low_y; high_y = c.high_y } };
}

/// Whether two numbers are the ends of a span, and less than 2^20 apart.
fn is_close_span(low: i64, high: i64) -> bool
    ensures { result ≡ is_close_span low high }
{
    -FAR_MAX <= low && high <= FAR_MAX && low <= high && high - low < COORD_MAX
}

/// The number of a range next to a number.
fn clamp(low: i64, high: i64, x: i64) -> i64
    ensures { result ≡ clamped low high x }
{
    if x < low {
        return low;
    }
    if high < x { high } else { x }
}

/// The least number that the plane holds, seen from another.
fn lowest(low: i64) -> i64
    requires { is_near low ≡ true }
    ensures { result ≡ low -ℤ pos coordinate_max }
{
    low - COORD_MAX
}

/// The greatest one.
fn highest(low: i64) -> i64
    requires { is_near low ≡ true }
    ensures { result ≡ low +ℤ pos coordinate_max }
{
    low + COORD_MAX
}

/// How far a number is over another.
fn over(low: i64, x: i64) -> i64
    requires { InRange (x -ℤ low) }
    ensures value { result ≡ x -ℤ low }
    ensures in_range { InRange result }
{
    x - low
}

/// How far a number is over another, as far as the plane goes.
fn reach(low: i64, x: i64) -> i64
    requires { is_near low ≡ true }
    ensures value { result ≡ clamped (low -ℤ pos coordinate_max) (low +ℤ pos coordinate_max) x -ℤ low }
    ensures in_range { InRange result }
{
    let from = lowest(low);
    let to = highest(low);
    let at = clamp(from, to, x);
    over(low, at)
}

/// The x of a point.
fn x_of(p: FarPoint) -> i64
    ensures { result ≡ p.x }
{
    p.x
}

/// The y of a point.
fn y_of(p: FarPoint) -> i64
    ensures { result ≡ p.y }
{
    p.y
}

/// A point of the plane.
pub(crate) fn point_at(x: i64, y: i64) -> Pt
    requires { InRange x × InRange y }
    ensures { result ≡ record { x = x; y = y } }
{
    Pt::new(x, y).unwrap()
}

/// Whether a number is so near to another that the plane holds it.
fn is_in_reach(low: i64, x: i64) -> bool
    requires { is_near low ≡ true }
    ensures { result ≡ (int_le (low -ℤ pos coordinate_max) x && int_le x (low +ℤ pos coordinate_max)) }
{
    low - COORD_MAX <= x && x <= low + COORD_MAX
}

impl NearCore {
    /// The core of a job, if it lies within the coordinates and is less than 2^20 wide and high.
    pub fn of(core: &Core) -> Option<NearCore>
        ensures fits { IsSome result ↔ IsTrue (fits (box_of core.now)) }
        ensures value { IfSome result (λ near. near ≡ box_of core.now) }
    {
        if is_close_span(core.low_x, core.high_x) && is_close_span(core.low_y, core.high_y) {
            return Some(NearCore {
                low_x: core.low_x,
                high_x: core.high_x,
                low_y: core.low_y,
                high_y: core.high_y,
            });
        }
        None
    }

    /// Says of a core what is true of each. The call does nothing.
    pub(crate) fn known(&self)
        ensures { fits self.now ≡ true }
    {
        // It fits by the type: the clause rests on that.
        let _ = &self.low_x;
    }

    /// The x at the low end.
    fn low_x(&self) -> i64
        ensures value { result ≡ self.now.low_x }
        ensures near { is_near result ≡ true }
    {
        self.low_x
    }

    /// The y at the low end.
    fn low_y(&self) -> i64
        ensures value { result ≡ self.now.low_y }
        ensures near { is_near result ≡ true }
    {
        self.low_y
    }

    /// The core as a job has it.
    pub(crate) fn core(&self) -> Core
        ensures { box_of result ≡ self.now }
    {
        Core {
            low_x: self.low_x,
            high_x: self.high_x,
            low_y: self.low_y,
            high_y: self.high_y,
        }
    }

    /// Whether the plane holds a point, seen from the low corner.
    pub(crate) fn holds(&self, p: FarPoint) -> bool
        ensures { result ≡ is_held (plane_of self.now) p }
    {
        is_in_reach(self.low_x(), x_of(p)) && is_in_reach(self.low_y(), y_of(p))
    }

    /// The point of the plane next to a point, seen from the low corner.
    pub(crate) fn placed(&self, p: FarPoint) -> Pt
        ensures { result ≡ placed (plane_of self.now) (low_of self.now) p }
    {
        let x = reach(self.low_x(), x_of(p));
        let y = reach(self.low_y(), y_of(p));
        point_at(x, y)
    }

    /// How wide and how high the core is.
    pub(crate) fn size(&self) -> (i64, i64)
        ensures wide { result.0 ≡ self.now.high_x -ℤ self.now.low_x }
        ensures high { result.1 ≡ self.now.high_y -ℤ self.now.low_y }
        ensures in_range { InRange result.0 × InRange result.1 }
    {
        (self.high_x - self.low_x, self.high_y - self.low_y)
    }
}
