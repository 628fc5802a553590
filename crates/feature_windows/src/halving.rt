//! The parts of a core that one pass each can take: a core with many steps is halved as long as its halves have fewer.
ghost use Rattle.std.specs.Prelude.{◌≡◌, ◌<◌, ℕ, length, IfOk, IfSome, OnOk};
ghost use Rattle.near_steps.specs.Cores.{box_of};
ghost use Rattle.feature_windows.specs.Shown.{rings_at};
ghost use Rattle.feature_windows.specs.Parts.{IsLong};
ghost use Rattle.feature_windows.specs.Layers.{layer_rings, rings_for, AddsLike, LookLike};
ghost use Rattle.feature_windows.specs.Windows.{AreHalves, AreWindows, IsDivided, IsInner};

use crate::boxes::{halves, is_long, size};
use crate::fault::WindowsFault;
use crate::features::Features;
use crate::layers::{add_near, draw_layers, near};
use crate::rings::Rings;
use crate::window::{Near, Window};
use block_reading::Core;
use near_steps::NearCore;
use std::alloc::Global;

/// More parts than a core is ever halved into.
const PARTS_MAX: u64 = 1099511627776;

/// The most segments that one pass takes.
pub(crate) const SEGMENTS_MAX: usize = 65536;

/// A part with the rings near it, not drawn.
fn undrawn(alloc: Global, core: Core, layers: Vec<Rings>) -> Window
    ensures core { result.core ≡ core }
    ensures layers { result.layers.items ≡ layers.items }
{
    Window {
        core,
        layers,
        marked: Vec::new(alloc),
        is_drawn: false,
    }
}

/// A part with the rings near it, drawn where it can be.
fn part_of(alloc: Global, core: Core, layers: Vec<Rings>) -> Result<Window, WindowsFault>
    ensures core { IfOk result (λ window. window.core ≡ core) }
    ensures layers { IfOk result (λ window. window.layers.items ≡ layers.items) }
{
    let Some(own) = NearCore::of(&core) else {
        return Ok(undrawn(alloc, core, layers));
    };
    match draw_layers(alloc, &layers, &own)? {
        Some(marked) => Ok(Window {
            core,
            layers,
            marked,
            is_drawn: true,
        }),
        None => Ok(undrawn(alloc, core, layers)),
    }
}

/// How many steps a part has, if it is drawn.
fn steps_of(part: &Window) -> Option<usize> {
    if part.is_drawn {
        Some(part.marked.len())
    } else {
        None
    }
}

/// Whether halves have fewer steps than the whole: not many more than it in all.
fn are_fewer(whole: Option<usize>, first: Option<usize>, second: Option<usize>) -> bool {
    let Some(count) = whole else {
        return true;
    };
    match (first, second) {
        (Some(a), Some(b)) => a.saturating_add(b) <= count.saturating_add(count / 4),
        _ => false,
    }
}

/// The layers of a part without its border.
fn inner(part: &Window) -> &[Rings]
    ensures { IsInner part.now.layers.items result.now }
{
    match part.layers.split_last() {
        Some((_, own)) => own,
        None => &part.layers,
    }
}

/// Both halves of a part.
fn halved(alloc: Global, part: &Window, across: bool) -> Result<(Window, Window), WindowsFault>
    requires { IsLong across part.now.core }
    ensures { IfOk result (λ both. AreHalves part.now both.0 both.1) }
{
    let (low, high) = halves(&part.core, across);
    let own = inner(part);
    let lows = near(alloc, own, &low)?;
    let highs = near(alloc, own, &high)?;
    let first = part_of(alloc, low, lows)?;
    let second = part_of(alloc, high, highs)?;
    Ok((first, second))
}

/// Both halves of a part by x or by y, where it can be halved and they have fewer steps.
fn fewer_halves(
    alloc: Global,
    part: &Window,
    across: bool,
) -> Result<Option<(Window, Window)>, WindowsFault>
    ensures { IfOk result (λ found. IfSome found (λ both. AreHalves part.now both.0 both.1)) }
{
    if !is_long(&part.core, across) {
        return Ok(None);
    }
    let (first, second) = halved(alloc, part, across)?;
    if are_fewer(steps_of(part), steps_of(&first), steps_of(&second)) {
        return Ok(Some((first, second)));
    }
    Ok(None)
}

/// Both halves of a part, by its longer side or else by the other one, where they have fewer steps.
fn better_halves(alloc: Global, part: &Window) -> Result<Option<(Window, Window)>, WindowsFault>
    ensures { IfOk result (λ found. IfSome found (λ both. AreHalves part.now both.0 both.1)) }
{
    let across = size(&part.core, true) >= size(&part.core, false);
    match fewer_halves(alloc, part, across)? {
        Some(both) => Ok(Some(both)),
        None => fewer_halves(alloc, part, !across),
    }
}

/// Whether a part has at most so many steps, and no more than one pass takes.
fn is_small(part: &Window, limit: usize) -> bool {
    match steps_of(part) {
        Some(steps) => steps <= limit && steps <= SEGMENTS_MAX,
        None => false,
    }
}

/// A part that one pass has to take as it is.
fn whole(part: Window) -> Result<Window, WindowsFault>
    ensures { IfOk result (λ window. window ≡ part) }
{
    if !part.is_drawn {
        return Err(WindowsFault::LongStep);
    }
    if part.marked.len() > SEGMENTS_MAX {
        return Err(WindowsFault::TooManySteps);
    }
    Ok(part)
}

/// Halves a part that has too many steps, if it can be; else it is done.
fn divide(
    alloc: Global,
    part: Window,
    limit: usize,
    done: &mut Vec<Window>,
    left: &mut Vec<Window>,
) -> Result<(), WindowsFault>
    ensures { OnOk result (IsDivided part done.old.items left.old.items done.new.items left.new.items) }
{
    if is_small(&part, limit) {
        let own = whole(part)?;
        done.push(own)?;
        return Ok(());
    }
    let Some((first, second)) = better_halves(alloc, &part)? else {
        let own = whole(part)?;
        done.push(own)?;
        return Ok(());
    };
    left.push(second)?;
    left.push(first)?;
    Ok(())
}

/// Adds what a feature looks like from within a core, if it counts for a layer.
fn add_member(
    alloc: Global,
    to: &mut Rings,
    features: &Features,
    one: &Near,
    layer: usize,
    core: &Core,
) -> Result<(), WindowsFault>
    ensures { OnOk result (AddsLike (box_of core.now) (rings_for features.now one.now layer) to.old to.new) }
{
    if one.layer != layer {
        return Ok(());
    }
    let Some(own) = features.rings_of(one.feature) else {
        return Ok(());
    };
    add_near(alloc, to, own, core)
}

/// What the features that count for a layer look like from within a core.
fn layer_of(
    alloc: Global,
    features: &Features,
    members: &[Near],
    layer: usize,
    core: &Core,
) -> Result<Rings, WindowsFault>
    ensures { IfOk result (λ rings. LookLike (box_of core.now) (layer_rings features.now members.now layer) rings) }
{
    let mut rings = Rings::none(alloc);
    for one in members {
        add_member(alloc, &mut rings, features, one, layer, core)?;
    }
    Ok(rings)
}

/// The layers of features, as they look from within a core.
fn layers_of(
    alloc: Global,
    features: &Features,
    members: &[Near],
    count: usize,
    core: &Core,
) -> Result<Vec<Rings>, WindowsFault>
    ensures count { IfOk result (λ list. length list.items ≡ count) }
    ensures each { IfOk result (λ list. (k : ℕ) → k < count →
        LookLike (box_of core.now) (layer_rings features.now members.now k) (rings_at k list.items)) }
{
    let mut list = Vec::new(alloc);
    for layer in 0..count {
        let own = layer_of(alloc, features, members, layer, core)?;
        list.push(own)?;
    }
    Ok(list)
}

/// The windows of a core over so many layers of features.
pub fn windows(
    alloc: Global,
    features: &Features,
    members: &[Near],
    count: usize,
    core: &Core,
    limit: usize,
) -> Result<Vec<Window>, WindowsFault>
    ensures { IfOk result (λ list. AreWindows features.now members.now count core.now list.items) }
{
    let own = layers_of(alloc, features, members, count, core)?;
    let layers = near(alloc, &own, core)?;
    let mut done = Vec::new(alloc);
    let mut left = Vec::new(alloc);
    let first = part_of(alloc, *core, layers)?;
    left.push(first)?;
    for _ in 0..PARTS_MAX {
        let Some(part) = left.pop() else {
            return Ok(done);
        };
        divide(alloc, part, limit, &mut done, &mut left)?;
    }
    Err(WindowsFault::TooManySteps)
}
