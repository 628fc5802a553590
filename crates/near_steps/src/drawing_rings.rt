//! Drawing rings.
ghost use Rattle.std.specs.Prelude.{◌≡◌, ◌++◌, ◌∷◌, [], take, drop, IfOk, OnOk};
ghost use Rattle.overlay_terms.specs.Plane.{ring_segments};
ghost use Rattle.block_reading.specs.Block.{dealt};
ghost use Rattle.map_window.specs.Drawn.{are_short, is_short};
ghost use Rattle.near_steps.specs.Cores.{plane_of};
ghost use Rattle.near_steps.specs.Thinned.{sides_of, thinned};
ghost use Rattle.near_steps.specs.Drawn.{are_drawable, drawing_of, line_drawn, marks, GoesOn, HasDrawn, HasMore, IsSided};

use crate::core_box::NearCore;
use crate::drawing::Drawing;
use crate::sides::have_common;
use crate::step::{Spot, Step};
use arrange::MarkedSeg;
use block_reading::FarPoint;
use plane_base::{Pt, Seg};
use std::alloc::AllocError;

/// Adds the segment between two points, if they differ.
pub(crate) fn add_step(
    marked: &mut Vec<MarkedSeg>,
    layer: u8,
    from: Pt,
    to: Pt,
) -> Result<(), AllocError>
    ensures ok { OnOk result (marked.new.items ≡ marked.old.items ++ marks layer (ring_segments (from ∷ to ∷ []))) }
    ensures kept { HasMore marked.old.items marked.new.items }
{
    if let Some(seg) = Seg::of(from, to) {
        marked.push(MarkedSeg { layer, seg })?;
    }
    Ok(())
}

/// Whether a step may be drawn: it lies off the core on one side, or the plane holds both its ends.
fn is_short(core: &NearCore, step: &Step) -> bool
    requires { IsSided core.now step.now }
    ensures { result ≡ is_short core.now (plane_of core.now) step.now.from.at step.now.to.at }
{
    let is_off = have_common(step.from.off, step.to.off, step.to.off);
    is_off || (core.holds(step.from.at) && core.holds(step.to.at))
}

/// Draws a step, if it may be.
fn draw_step(
    marked: &mut Vec<MarkedSeg>,
    layer: u8,
    core: &NearCore,
    step: &Step,
) -> Result<Drawing, AllocError>
    requires { IsSided core.now step.now }
    ensures answer { IfOk result (λ drawing. drawing ≡ drawing_of (is_short core.now (plane_of core.now) step.now.from.at step.now.to.at)) }
    ensures drawn { IfOk result (λ drawing. drawing ≡ Drawing.Whole →
        marked.new.items ≡ marked.old.items ++ marks layer (line_drawn core.now (step.now.from.at ∷ step.now.to.at ∷ []))) }
    ensures kept { HasMore marked.old.items marked.new.items }
{
    if !is_short(core, step) {
        return Ok(Drawing::StepTooLong);
    }
    let from = core.placed(step.from.at);
    let to = core.placed(step.to.at);
    add_step(marked, layer, from, to)?;
    Ok(Drawing::Whole)
}

/// Goes on to one more point of a line: in the place of the last one where the last two and it lie off the core on one
/// side, else the last two are drawn.
fn go_on(
    marked: &mut Vec<MarkedSeg>,
    layer: u8,
    core: &NearCore,
    last: &mut Step,
    next: Spot,
) -> Result<Drawing, AllocError>
    requires last { IsSided core.now last.old }
    requires next { next.off ≡ sides_of core.now next.at }
    ensures sided { OnOk result (IsSided core.now last.new) }
    ensures goes_on { IfOk result (GoesOn core.now layer marked.old.items marked.new.items last.old last.new next.at) }
    ensures kept { HasMore marked.old.items marked.new.items }
{
    if have_common(last.from.off, last.to.off, next.off) {
        last.to = next;
        return Ok(Drawing::Whole);
    }
    let drawing = draw_step(marked, layer, core, last)?;
    last.from = last.to;
    last.to = next;
    Ok(drawing)
}

/// Draws a line, of three points on one side of the core without the middle one.
fn draw_line(
    marked: &mut Vec<MarkedSeg>,
    layer: u8,
    points: &[FarPoint],
    core: &NearCore,
) -> Result<Drawing, AllocError>
    ensures answer { IfOk result (λ drawing. drawing ≡ drawing_of (are_short core.now (plane_of core.now) points.now)) }
    ensures drawn { IfOk result (λ drawing. drawing ≡ Drawing.Whole →
        marked.new.items ≡ marked.old.items ++ marks layer (line_drawn core.now (thinned core.now points.now))) }
    ensures kept { HasMore marked.old.items marked.new.items }
{
    let Some((first, others)) = points.split_first() else {
        return Ok(Drawing::Whole);
    };
    let Some((second, rest)) = others.split_first() else {
        return Ok(Drawing::Whole);
    };
    let mut last = core.step(*first, *second);
    for p in rest {
        let next = core.spot(*p);
        let Drawing::Whole = go_on(marked, layer, core, &mut last, next)? else {
            return Ok(Drawing::StepTooLong);
        };
    }
    draw_step(marked, layer, core, &last)
}

/// Adds what is seen of a ring from within the core, as segments of the plane that has the core's low corner as its
/// origin.
pub fn draw(
    marked: &mut Vec<MarkedSeg>,
    layer: u8,
    points: &[FarPoint],
    core: &NearCore,
) -> Result<Drawing, AllocError>
    ensures answer { IfOk result (λ drawing. drawing ≡ drawing_of (are_drawable core.now (points.now ∷ []))) }
    ensures drawn { IfOk result (λ drawing. drawing ≡ Drawing.Whole →
        HasDrawn core.now layer (points.now ∷ []) marked.old.items marked.new.items) }
    ensures kept { HasMore marked.old.items marked.new.items }
{
    core.known();
    draw_line(marked, layer, points, core)
}

/// The first so many points, or all where there are fewer, and those after them.
fn parted(points: &[FarPoint], count: u32) -> (&[FarPoint], &[FarPoint])
    ensures first { result.0.now ≡ take count points.now }
    ensures rest { result.1.now ≡ drop count points.now }
{
    let count = count as usize;
    if points.len() < count {
        return (points, &points[points.len()..]);
    }
    points.split_at(count)
}

/// Adds what is seen of the rings of a feature from within the core, as `draw` does; the rings have so many points each, in
/// a row.
pub fn draw_feature(
    marked: &mut Vec<MarkedSeg>,
    layer: u8,
    counts: &[u32],
    points: &[FarPoint],
    core: &NearCore,
) -> Result<Drawing, AllocError>
    ensures answer { IfOk result (λ drawing. drawing ≡ drawing_of (are_drawable core.now (dealt counts.now points.now))) }
    ensures drawn { IfOk result (λ drawing. drawing ≡ Drawing.Whole →
        HasDrawn core.now layer (dealt counts.now points.now) marked.old.items marked.new.items) }
    ensures kept { HasMore marked.old.items marked.new.items }
{
    core.known();
    let mut rest = points;
    for count in counts {
        let (ring, after) = parted(rest, *count);
        let Drawing::Whole = draw_line(marked, layer, ring, core)? else {
            return Ok(Drawing::StepTooLong);
        };
        rest = after;
    }
    Ok(Drawing::Whole)
}
