//! The corners of rings.
use crate::edge::Net;
use crate::splitting::{number_at, put_at};
use std::alloc::{AllocError, Global};

/// How many edges begin at each place.
pub(crate) fn begun(alloc: Global, net: &Net) -> Result<Vec<usize>, AllocError> {
    let mut list = vec![in alloc; 0; net.places.len()]?;
    for number in 0..net.edges.len() {
        let at = net.tail_of(number);
        let count = number_at(&list, at).saturating_add(1);
        put_at(&mut list, at, count);
    }
    Ok(list)
}

/// Adds the corners of a ring: where it bends, and where other edges meet it, as these may bend there.
pub(crate) fn add_corners(
    corners: &mut Vec<usize>,
    net: &Net,
    begun: &[usize],
    ring: &[usize],
) -> Result<(), AllocError> {
    let Some(last) = ring.last() else {
        return Ok(());
    };
    let mut before = *last;
    for one in ring {
        let at = net.tail_of(*one);
        if net.bend(before, *one) != 0 || number_at(begun, at) > 1 {
            corners.push(at)?;
        }
        before = *one;
    }
    Ok(())
}
