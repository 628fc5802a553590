//! What is drawn of a ring, and of a map.
ghost use Rattle.std.specs.Prelude.{◌≡◌, ◌++◌, ◌-ℤ◌, IfOk, OnOk, IsOkUnless, true, [], Ok};
ghost use Rattle.std.specs.Option.{option_to_list};
ghost use Rattle.overlay_terms.specs.Plane.{InRange};
ghost use Rattle.map_window.specs.Window.{whole_moved};
ghost use Rattle.map_window.specs.Drawn.{clamped, into, placed, box_moved, lies_in_plane};
ghost use Rattle.map_window.specs.Drawn.{added, extended, ring_of, ring_drawn, rings_drawn};

use crate::far::{FarBox, FarPt, FarRing};
use crate::fitting::share_side;
use plane_base::{PlaneFault, Pt, Ring};
use std::alloc::{AllocError, Global};
use std::marker::Model;

/// The number of a range next to a number.
fn clamp(low: i64, high: i64, x: i64) -> i64
    ensures { result ≡ clamped low high x }
{
    if x < low {
        return low;
    }
    if high < x { high } else { x }
}

/// The point of the frame next to a point.
fn into_frame(frame: &FarBox, a: FarPt) -> FarPt
    ensures { result ≡ into frame.now a }
{
    let x = clamp(frame.low_x(), frame.high_x(), a.x());
    let y = clamp(frame.low_y(), frame.high_y(), a.y());
    FarPt::new(x, y)
}

/// How far a point lies right of an origin.
fn across(at: FarPt, origin: FarPt) -> i64
    requires { InRange (at.x -ℤ origin.x) }
    ensures { result ≡ at.x -ℤ origin.x }
{
    at.x() - origin.x()
}

/// How far a point lies over an origin.
fn along(at: FarPt, origin: FarPt) -> i64
    requires { InRange (at.y -ℤ origin.y) }
    ensures { result ≡ at.y -ℤ origin.y }
{
    at.y() - origin.y()
}

/// A point of the plane that has this origin.
fn seen_from(at: FarPt, origin: FarPt) -> Result<Pt, PlaneFault>
    requires across { InRange (at.x -ℤ origin.x) }
    requires along { InRange (at.y -ℤ origin.y) }
    ensures { result ≡ Ok (whole_moved origin at) }
{
    Pt::new(across(at, origin), along(at, origin))
}

/// Where a point of the map lies in the plane: in the frame, seen from the origin.
fn placed(frame: &FarBox, origin: FarPt, a: FarPt) -> Result<Pt, PlaneFault>
    requires { lies_in_plane frame.now origin ≡ true }
    ensures { result ≡ Ok (placed frame.now origin a) }
{
    let at = into_frame(frame, a);
    seen_from(at, origin)
}

/// A line of the plane with its last two points apart.
#[derive(Drop)]
struct Line {
    done: Vec<Pt>,
    before: Pt,
    last: Pt,
}

impl Model for Line {
    ghost Value = { Rattle.map_window.specs.Drawn.Line };

    ghost view = { λ l. record { done = l.done.items; before = l.before; last = l.last } };
}

impl Line {
    /// A line of two points.
    fn new(alloc: Global, before: Pt, last: Pt) -> Line
        ensures { result ≡ record { done = []; before = before; last = last } }
    {
        Line {
            done: Vec::new(alloc),
            before,
            last,
        }
    }

    /// Adds a point at the end, in the place of the last one where the last two and it lie off the core on one side.
    fn add(&mut self, core: &FarBox, p: Pt) -> Result<(), AllocError>
        ensures { OnOk result (self.new ≡ added core.now self.old p) }
    {
        if share_side(core, far(self.before), far(self.last), far(p)) {
            self.last = p;
            return Ok(());
        }
        self.done.push(self.before)?;
        self.before = self.last;
        self.last = p;
        Ok(())
    }

    /// Adds a point of the map.
    fn extend(
        &mut self,
        near: &FarBox,
        frame: &FarBox,
        origin: FarPt,
        a: FarPt,
    ) -> Result<(), PlaneFault>
        requires { lies_in_plane frame.now origin ≡ true }
        ensures ok { OnOk result (self.new ≡ extended near.now frame.now origin self.old a) }
        ensures err { IsOkUnless result PlaneFault.OutOfMemory }
    {
        let p = placed(frame, origin, a)?;
        self.add(near, p)?;
        Ok(())
    }

    /// The line as a ring, unless it has two points.
    fn into_ring(self) -> Result<Option<Ring>, AllocError>
        ensures { IfOk result (λ ring. ring ≡ ring_of self.done self.before self.last) }
    {
        let mut points = self.done;
        let count = points.len();
        if count == 0 {
            return Ok(None);
        }
        points.push(self.before)?;
        points.push(self.last)?;
        if count == 1 {
            points.push(self.last)?;
        }
        Ok(Some(Ring::new(points)))
    }
}

/// A point of the plane as one that may lie anywhere.
fn far(p: Pt) -> FarPt
    ensures { result ≡ p }
{
    FarPt::new(p.x(), p.y())
}

/// A point, seen from an origin that is not far from it.
fn whole_seen(at: FarPt, origin: FarPt) -> FarPt
    requires across { InRange (at.x -ℤ origin.x) }
    requires along { InRange (at.y -ℤ origin.y) }
    ensures { result ≡ whole_moved origin at }
{
    FarPt::new(across(at, origin), along(at, origin))
}

/// A box of the plane that has this origin.
fn box_seen(core: &FarBox, origin: FarPt) -> FarBox
    requires { lies_in_plane core.now origin ≡ true }
    ensures { result ≡ box_moved origin core.now }
{
    let low = whole_seen(core.low(), origin);
    let high = whole_seen(core.high(), origin);
    FarBox::between(low, high)
}

/// What is drawn of a ring, if anything; the core is seen from the origin.
fn ring_drawn(
    alloc: Global,
    ring: &FarRing,
    near: &FarBox,
    frame: &FarBox,
    origin: FarPt,
) -> Result<Option<Ring>, PlaneFault>
    requires { lies_in_plane frame.now origin ≡ true }
    ensures ok { IfOk result (λ drawn. drawn ≡ ring_drawn near.now frame.now origin ring.now) }
    ensures err { IsOkUnless result PlaneFault.OutOfMemory }
{
    let Some((first, others)) = ring.points().split_first() else {
        return Ok(None);
    };
    let Some((second, rest)) = others.split_first() else {
        return Ok(None);
    };
    let before = placed(frame, origin, *first)?;
    let last = placed(frame, origin, *second)?;
    let mut line = Line::new(alloc, before, last);
    for a in rest {
        line.extend(near, frame, origin, *a)?;
    }
    Ok(line.into_ring()?)
}

/// Adds a ring at the end, if there is one.
fn keep(drawn: &mut Vec<Ring>, ring: Option<Ring>) -> Result<(), AllocError>
    ensures { OnOk result (drawn.new.items ≡ drawn.old.items ++ option_to_list ring) }
{
    if let Some(ring) = ring {
        drawn.push(ring)?;
    }
    Ok(())
}

/// What is drawn of a map.
pub(crate) fn rings_drawn(
    alloc: Global,
    rings: &[FarRing],
    core: &FarBox,
    frame: &FarBox,
    origin: FarPt,
) -> Result<Vec<Ring>, PlaneFault>
    requires core_placed { lies_in_plane core.now origin ≡ true }
    requires frame_placed { lies_in_plane frame.now origin ≡ true }
    ensures ok { IfOk result (λ drawn. drawn.items ≡ rings_drawn core.now frame.now origin rings.now) }
    ensures err { IsOkUnless result PlaneFault.OutOfMemory }
{
    let near = box_seen(core, origin);
    let mut drawn = Vec::new(alloc);
    for ring in rings {
        let made = ring_drawn(alloc, ring, &near, frame, origin)?;
        keep(&mut drawn, made)?;
    }
    Ok(drawn)
}
