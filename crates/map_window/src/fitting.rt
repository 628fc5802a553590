//! Whether a map may be drawn into a frame.
ghost use Rattle.std.specs.Prelude.{◌≡◌, int_le, ◌&&◌, ◌||◌, ◌-ℤ◌, Some, None};
ghost use Rattle.overlay_terms.specs.Plane.{is_coordinate};
ghost use Rattle.map_window.specs.Drawn.{are_nested, is_framed, are_coordinates, lies_in_plane, are_less};
ghost use Rattle.map_window.specs.Drawn.{are_more, share_side, is_held, is_short, are_short};
ghost use Rattle.map_window.specs.Fault.{first_long_ring, window_fault};
ghost use Rattle.plane_base.specs.BaseLayer.{ring_fault, first_ring_fault};

use crate::far::{FarBox, FarPt, FarRing};
use crate::fault::WindowFault;
use plane_base::{COORD_MAX, PlaneFault};

/// Why a window of a map is refused, before anything is drawn.
pub(crate) fn fault_of(
    rings: &[FarRing],
    core: &FarBox,
    frame: &FarBox,
    origin: FarPt,
) -> Option<WindowFault>
    ensures { result ≡ window_fault core.now frame.now origin rings.now }
{
    if !is_framed(core, frame) {
        return Some(WindowFault::CoreOffFrame);
    }
    if !lies_in_plane(frame, origin) {
        return Some(WindowFault::FrameOffPlane);
    }
    if let Some(fault) = first_fault(rings) {
        return Some(WindowFault::Plane(fault));
    }
    first_long_ring(rings, core, frame)
}

/// Whether the core is a box in the open inside of the frame.
fn is_framed(core: &FarBox, frame: &FarBox) -> bool
    ensures { result ≡ is_framed core.now frame.now }
{
    both(is_framed_across(core, frame), is_framed_along(core, frame))
}

/// The same by x.
fn is_framed_across(core: &FarBox, frame: &FarBox) -> bool
    ensures { result ≡ are_nested frame.now.low_x core.now.low_x core.now.high_x frame.now.high_x }
{
    are_nested(frame.low_x(), core.low_x(), core.high_x(), frame.high_x())
}

/// The same by y.
fn is_framed_along(core: &FarBox, frame: &FarBox) -> bool
    ensures { result ≡ are_nested frame.now.low_y core.now.low_y core.now.high_y frame.now.high_y }
{
    are_nested(frame.low_y(), core.low_y(), core.high_y(), frame.high_y())
}

/// Whether four numbers come in this order, the middle two strictly between the others.
fn are_nested(a: i64, b: i64, c: i64, d: i64) -> bool
    ensures { result ≡ are_nested a b c d }
{
    a < b && b <= c && c < d
}

/// Whether a box lies in the plane that has this origin.
fn lies_in_plane(frame: &FarBox, origin: FarPt) -> bool
    ensures { result ≡ lies_in_plane frame.now origin }
{
    let across = are_coordinates(frame.low_x(), frame.high_x(), origin.x());
    let along = are_coordinates(frame.low_y(), frame.high_y(), origin.y());
    both(across, along)
}

/// Whether two numbers, seen from a third, are coordinates of the plane.
fn are_coordinates(low: i64, high: i64, from: i64) -> bool
    ensures { result ≡ are_coordinates low high from }
{
    both(is_coordinate(low, from), is_coordinate(high, from))
}

/// Whether a number, seen from another, is a coordinate of the plane.
fn is_coordinate(z: i64, from: i64) -> bool
    ensures { result ≡ is_coordinate (z -ℤ from) }
{
    is_within(i128::from(z) - i128::from(from))
}

/// Whether a number is a coordinate of the plane.
fn is_within(z: i128) -> bool
    ensures { result ≡ is_coordinate z }
{
    -COORD_MAX as i128 <= z && z <= COORD_MAX as i128
}

/// What is wrong with a ring of the map, which has this index.
fn fault_of_ring(ring: &FarRing, at: usize) -> Option<PlaneFault>
    ensures { result ≡ ring_fault at ring.now }
{
    let points = ring.points();
    if points.len() < 4 {
        return Some(PlaneFault::RingShort(at));
    }
    if points[0] == points[points.len() - 1] {
        None
    } else {
        Some(PlaneFault::RingOpen(at))
    }
}

/// The first thing that is wrong with a ring of the map.
fn first_fault(rings: &[FarRing]) -> Option<PlaneFault>
    ensures { result ≡ first_ring_fault 0 rings.now }
{
    for (at, ring) in rings.iter().enumerate() {
        if let Some(fault) = fault_of_ring(ring, at) {
            return Some(fault);
        }
    }
    None
}

/// The first ring with a step that may not be drawn in.
fn first_long_ring(rings: &[FarRing], core: &FarBox, frame: &FarBox) -> Option<WindowFault>
    ensures { result ≡ first_long_ring core.now frame.now 0 rings.now }
{
    for (at, ring) in rings.iter().enumerate() {
        if !are_short(ring.points(), core, frame) {
            return Some(WindowFault::StepTooLong(at));
        }
    }
    None
}

/// Whether each step of a ring may be drawn in.
fn are_short(points: &[FarPt], core: &FarBox, frame: &FarBox) -> bool
    ensures { result ≡ are_short core.now frame.now points.now }
{
    let Some((first, rest)) = points.split_first() else {
        return true;
    };
    let mut last = *first;
    for p in rest {
        if !is_short(core, frame, last, *p) {
            return false;
        }
        last = *p;
    }
    true
}

/// Whether a step may be drawn in: both ends lie off the core on one side, or both in the frame.
fn is_short(core: &FarBox, frame: &FarBox, a: FarPt, b: FarPt) -> bool
    ensures { result ≡ is_short core.now frame.now a b }
{
    either(
        share_side(core, a, b, b),
        both(is_held(frame, a), is_held(frame, b)),
    )
}

/// Whether three points lie off a box on one side.
pub(crate) fn share_side(core: &FarBox, a: FarPt, b: FarPt, c: FarPt) -> bool
    ensures { result ≡ share_side core.now a b c }
{
    either(
        either(are_left(core, a, b, c), are_right(core, a, b, c)),
        either(are_under(core, a, b, c), are_over(core, a, b, c)),
    )
}

/// Whether three points lie left of a box.
fn are_left(core: &FarBox, a: FarPt, b: FarPt, c: FarPt) -> bool
    ensures { result ≡ are_less a.x b.x c.x core.now.low_x }
{
    are_less(a.x(), b.x(), c.x(), core.low_x())
}

/// Whether three points lie right of a box.
fn are_right(core: &FarBox, a: FarPt, b: FarPt, c: FarPt) -> bool
    ensures { result ≡ are_more core.now.high_x a.x b.x c.x }
{
    are_more(core.high_x(), a.x(), b.x(), c.x())
}

/// Whether three points lie under a box.
fn are_under(core: &FarBox, a: FarPt, b: FarPt, c: FarPt) -> bool
    ensures { result ≡ are_less a.y b.y c.y core.now.low_y }
{
    are_less(a.y(), b.y(), c.y(), core.low_y())
}

/// Whether three points lie over a box.
fn are_over(core: &FarBox, a: FarPt, b: FarPt, c: FarPt) -> bool
    ensures { result ≡ are_more core.now.high_y a.y b.y c.y }
{
    are_more(core.high_y(), a.y(), b.y(), c.y())
}

/// Whether three numbers are less than a fourth.
fn are_less(a: i64, b: i64, c: i64, limit: i64) -> bool
    ensures { result ≡ are_less a b c limit }
{
    a < limit && b < limit && c < limit
}

/// Whether three numbers are more than a fourth.
fn are_more(limit: i64, a: i64, b: i64, c: i64) -> bool
    ensures { result ≡ are_more limit a b c }
{
    limit < a && limit < b && limit < c
}

/// One and the other.
fn both(x: bool, y: bool) -> bool
    ensures { result ≡ (x && y) }
{
    x && y
}

/// One or the other.
fn either(x: bool, y: bool) -> bool
    ensures { result ≡ (x || y) }
{
    x || y
}

/// Whether a point lies in a box or on its border.
fn is_held(frame: &FarBox, a: FarPt) -> bool
    ensures { result ≡ is_held frame.now a }
{
    let across = is_between(frame.low_x(), a.x(), frame.high_x());
    let along = is_between(frame.low_y(), a.y(), frame.high_y());
    both(across, along)
}

/// Whether a number lies in a range or at its ends.
fn is_between(low: i64, x: i64, high: i64) -> bool
    ensures { result ≡ (int_le low x && int_le x high) }
{
    low <= x && x <= high
}
