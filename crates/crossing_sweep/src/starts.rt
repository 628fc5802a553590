//! The units of a strip in the order in which a pass meets them.
ghost use Rattle.std.specs.Prelude.{◌≡◌, IsTrue, IfOk};
ghost use Rattle.std.specs.declared.cmp.Ordering.TheVariants.{Less};
ghost use Rattle.overlay_terms.specs.Plane.{whole_cmp};
ghost use Rattle.exact_point.specs.Place.{place};
ghost use Rattle.crossing_sweep.specs.Passing.{IsEntry};
ghost use Rattle.crossing_sweep.specs.Start.{AreStarts, is_met};

use crate::by_reference::{copied, references};
use crate::pass_input::PassInput;
use crate::rank::rank;
use crate::start::Start;
use crate::strip::Strip;
use arrange::units_of;
use exact_point::NearPoint;
use plane_base::Seg;
use std::alloc::{AllocError, Global};

/// The units with a place of the closed strip, in the order in which a pass meets them.
pub(crate) fn starts(alloc: Global, input: &PassInput) -> Result<Vec<Start>, AllocError>
    ensures { IfOk result (λ list. AreStarts input.now list.items) }
{
    let units = units_of(alloc, input.marked())?;
    let mut list = Vec::with_capacity(alloc, units.len())?;
    for unit in &units {
        if is_met(&unit.seg, input.strip()) {
            let at = first_place(&unit.seg, input.strip());
            list.push(Start {
                at,
                rank: rank(&at.point()),
                unit: *unit,
            })?;
        }
    }
    // A start is large: what is moved to and fro is where it is kept.
    let mut order = references(alloc, &list)?;
    order.sort_unstable();
    let sorted = copied(alloc, &order)?;
    Ok(sorted)
}

/// Whether a segment has a place in a closed strip.
fn is_met(seg: &Seg, strip: Strip) -> bool
    ensures { result ≡ is_met strip seg.now }
{
    let begins = seg.left().x() <= strip.end();
    let ends = strip.border() <= seg.right().x();
    // Eager, so that one equation says all: neither side costs more than a comparison.
    begins & ends
}

/// The first place of a closed strip on a segment.
fn first_place(seg: &Seg, strip: Strip) -> NearPoint
    requires ahead { whole_cmp seg.now.left seg.now.right ≡ Less }
    requires met { IsTrue (is_met strip seg.now) }
    ensures { IsEntry strip seg.now (place result) }
{
    if strip.border() <= seg.left().x() {
        return NearPoint::whole(seg.left());
    }
    if seg.right().x() <= strip.border() {
        return NearPoint::whole(seg.right());
    }
    NearPoint::on_border(seg, strip.first().number(), strip.border())
}
