//! Layers of rings, and what is drawn of them within a core.
ghost use Rattle.std.specs.Prelude.{◌≡◌, ◌∷◌, [], length, map, IfOk, IfSome, OnOk, All};
ghost use Rattle.overlay_terms.specs.InputLaws.{IsClosed};
ghost use Rattle.arrange.specs.Marked.{marked_of};
ghost use Rattle.near_steps.specs.Cores.{box_of};
ghost use Rattle.near_steps.specs.Drawn.{HasDrawn};
ghost use Rattle.feature_windows.specs.Shown.{rings_at, AreShown, HasLayer};
ghost use Rattle.feature_windows.specs.Layers.{corners_of, AddsLike, HasLayers, LookLike};

use crate::fault::WindowsFault;
use crate::rings::{Rings, is_open, parted};
use crate::sides::lie_off;
use arrange::MarkedSeg;
use block_reading::{Core, FarPoint};
use near_steps::{Drawing, NearCore, draw_feature, reduced};
use std::alloc::{AllocError, Global};

/// Adds what some rings look like from within a core.
pub(crate) fn add_near(
    alloc: Global,
    to: &mut Rings,
    rings: &Rings,
    core: &Core,
) -> Result<(), WindowsFault>
    ensures { OnOk result (AddsLike (box_of core.now) rings.now to.old to.new) }
{
    let (counts, points) = rings.lent();
    let mut rest = points;
    for count in counts {
        let (own, after) = parted(rest, *count);
        add_ring(alloc, to, own, core)?;
        rest = after;
    }
    Ok(())
}

/// A ring of so many points is long: it is not taken along as it is.
const LONG_RING: usize = 64;

/// Adds a ring as it looks from within a core.
fn add_ring(
    alloc: Global,
    to: &mut Rings,
    points: &[FarPoint],
    core: &Core,
) -> Result<(), WindowsFault>
    ensures { OnOk result (AddsLike (box_of core.now) (points.now ∷ []) to.old to.new) }
{
    if points.len() < LONG_RING {
        return add_left(to, points, points, core);
    }
    let left = reduced(alloc, points, core)?;
    add_left(to, points, &left, core)
}

/// Adds what is left of a ring for a core, unless it lies off the core on one side: then it looks like none if it is
/// closed, and is refused if not.
fn add_left(
    to: &mut Rings,
    points: &[FarPoint],
    left: &[FarPoint],
    core: &Core,
) -> Result<(), WindowsFault>
    requires { LookLike (box_of core.now) (points.now ∷ []) (left.now ∷ []) }
    ensures { OnOk result (AddsLike (box_of core.now) (points.now ∷ []) to.old to.new) }
{
    if lie_off(core, left) {
        if is_open(left) {
            return Err(WindowsFault::BadRing);
        }
        return Ok(());
    }
    if left.len() < 4 {
        to.add(points)?;
        return Ok(());
    }
    to.add(left)?;
    Ok(())
}

/// What layers look like from within a core, and its border as the last layer.
pub(crate) fn near(alloc: Global, layers: &[Rings], core: &Core) -> Result<Vec<Rings>, WindowsFault>
    ensures { IfOk result (λ list. HasLayers (box_of core.now) (length layers.now) (λ k. rings_at k layers.now) list.items) }
{
    let mut list = Vec::new(alloc);
    for layer in layers {
        let mut own = Rings::none(alloc);
        add_near(alloc, &mut own, layer, core)?;
        list.push(own)?;
    }
    list.push(border(alloc, core)?)?;
    Ok(list)
}

/// The border of a core as a ring.
fn border(alloc: Global, core: &Core) -> Result<Rings, AllocError>
    ensures { IfOk result (λ rings. rings ≡ corners_of (box_of core.now) ∷ []) }
{
    let corners = [
        FarPoint {
            x: core.low_x,
            y: core.low_y,
        },
        FarPoint {
            x: core.high_x,
            y: core.low_y,
        },
        FarPoint {
            x: core.high_x,
            y: core.high_y,
        },
        FarPoint {
            x: core.low_x,
            y: core.high_y,
        },
        FarPoint {
            x: core.low_x,
            y: core.low_y,
        },
    ];
    let mut rings = Rings::none(alloc);
    rings.add(&corners)?;
    Ok(rings)
}

/// Draws a layer of rings within a core.
fn draw_layer(
    marked: &mut Vec<MarkedSeg>,
    number: u8,
    rings: &Rings,
    core: &NearCore,
) -> Result<Drawing, WindowsFault>
    ensures { IfOk result (λ drawing. drawing ≡ Drawing.Whole → HasLayer core.now number rings.now marked.old.items marked.new.items) }
{
    if !rings.are_rings() {
        return Err(WindowsFault::BadRing);
    }
    let (counts, points) = rings.lent();
    Ok(draw_feature(marked, number, counts, points, core)?)
}

/// What is drawn of layers within a core; none where a step is too long.
pub(crate) fn draw_layers(
    alloc: Global,
    layers: &[Rings],
    core: &NearCore,
) -> Result<Option<Vec<MarkedSeg>>, WindowsFault>
    ensures { IfOk result (λ found. IfSome found (λ marked. AreShown core.now layers.now (map marked_of marked.items))) }
{
    let mut marked = Vec::new(alloc);
    let mut number: u8 = 0;
    for rings in layers {
        let Drawing::Whole = draw_layer(&mut marked, number, rings, core)? else {
            return Ok(None);
        };
        let Some(next) = number.checked_add(1) else {
            return Err(WindowsFault::OtherLayers);
        };
        number = next;
    }
    Ok(Some(marked))
}
