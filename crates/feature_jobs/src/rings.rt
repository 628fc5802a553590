//! Rings of a row, and their corners, as bytes; docs/FORMAT.md has the form.
use crate::bytes::{add_i128, add_u32, add_u64, small};
use block_reading::Core;
use boundary_outlines::{Outline, Place, nearest};
use std::alloc::{AllocError, Global};

/// What the rings of an outline are, as a block wants them: whether corners are fractions, and from where they are seen.
#[derive(Clone, Copy, Debug)]
pub(crate) struct RingForm {
    pub fractions: bool,
    pub x: i64,
    pub y: i64,
}

/// That form of what is seen from the low corner of a core.
pub(crate) fn form_in(core: &Core, fractions: bool) -> RingForm {
    RingForm {
        fractions,
        x: core.low_x,
        y: core.low_y,
    }
}

/// A whole number and a rest over w, seen from so far, times w.
fn over(whole: i64, from: i64, rest: i64, w: i64) -> i128 {
    let far = i128::from(whole).saturating_add(i128::from(from));
    far.saturating_mul(i128::from(w))
        .saturating_add(i128::from(rest))
}

/// Adds a corner.
fn add_corner(to: &mut Vec<u8>, place: &Place, form: &RingForm) -> Result<(), AllocError> {
    let w = i128::from(place.w);
    let x = over(place.x, form.x, place.left, place.w);
    let y = over(place.y, form.y, place.up, place.w);
    if form.fractions {
        add_i128(to, x)?;
        add_i128(to, y)?;
        add_i128(to, w)
    } else {
        add_u64(to, nearest(x, w))?;
        add_u64(to, nearest(y, w))
    }
}

/// How many rings an outline has, if there is one.
pub(crate) fn ring_count(outline: &Option<Outline>) -> u32 {
    match outline {
        Some(own) => small(own.rings.len()),
        None => 0,
    }
}

/// The rings of an outline, if there is one, the row of each left open, then all their corners.
pub(crate) fn outline_bytes(
    alloc: Global,
    outline: &Option<Outline>,
    form: &RingForm,
) -> Result<Vec<u8>, AllocError> {
    let mut bytes = Vec::new(alloc);
    if let Some(own) = outline {
        add_rings(&mut bytes, own, form)?;
    }
    Ok(bytes)
}

/// Adds rings, the row of each left open, then all their corners.
fn add_rings(to: &mut Vec<u8>, outline: &Outline, form: &RingForm) -> Result<(), AllocError> {
    for ring in &outline.rings {
        add_u32(to, 0)?;
        let outer = match ring.outer {
            Some(number) => small(number),
            None => u32::MAX,
        };
        add_u32(to, outer)?;
        add_u32(to, small(ring.to.saturating_sub(ring.from)))?;
        add_u32(to, 0)?;
    }
    for number in &outline.corners {
        if let Some(place) = outline.places.get(*number) {
            add_corner(to, place, form)?;
        }
    }
    Ok(())
}
