//! The features of a block, with their boxes.
ghost use Rattle.std.specs.Prelude.{◌≡◌, ◌≤◌, length, take, drop, slice_get, Some, IfOk, IfSome, IfNone};
ghost use Rattle.block_reading.specs.Block.{dealt, features_of};

use crate::boxes::nothing;
use crate::rings::{Rings, split_points};
use block_reading::{Core, FarPoint, Shapes};
use std::alloc::{AllocError, Global};
use std::marker::Model;

/// The features of a block.
#[derive(Debug, Drop)]
pub struct Features {
    rings: Vec<Rings>,
    boxes: Vec<Core>,
}

/// The first so many counts, or all where there are fewer, and those after them.
fn counts_parted(counts: &[u32], count: u32) -> (&[u32], &[u32])
    ensures first { result.0.now ≡ take count counts.now }
    ensures rest { result.1.now ≡ drop count counts.now }
{
    let count = count as usize;
    if counts.len() < count {
        return (counts, &counts[counts.len()..]);
    }
    counts.split_at(count)
}

/// Rings of so many points each, dealt out to features of so many rings each.
fn dealt_out(
    alloc: Global,
    ring_counts: &[u32],
    point_counts: &[u32],
    points: &[FarPoint],
) -> Result<Vec<Rings>, AllocError>
    ensures { IfOk result (λ list. list.items ≡ dealt ring_counts.now (dealt point_counts.now points.now)) }
{
    let mut list = Vec::new(alloc);
    let mut counts = point_counts;
    let mut rest = points;
    for count in ring_counts {
        let (own, others) = counts_parted(counts, *count);
        let (front, after) = split_points(own, rest);
        let rings = Rings::of(alloc, own, front)?;
        list.push(rings)?;
        counts = others;
        rest = after;
    }
    Ok(list)
}

/// The boxes of features.
fn boxes(alloc: Global, rings: &[Rings]) -> Result<Vec<Core>, AllocError> {
    let mut list = Vec::new(alloc);
    for own in rings {
        list.push(own.extent())?;
    }
    Ok(list)
}

impl Model for Features {
    ghost use Rattle.std.specs.Prelude.{List};
    ghost use Rattle.overlay_terms.specs.Plane.{WholePoint};

    ghost Value = { List (List (List WholePoint)) };

    ghost view = { λ f. f.rings.items };
}

impl Features {
    /// The features of a block.
    pub fn of(alloc: Global, shapes: &Shapes) -> Result<Features, AllocError>
        ensures { IfOk result (λ features. features ≡ features_of shapes.now) }
    {
        let rings = dealt_out(
            alloc,
            shapes.ring_counts(),
            shapes.point_counts(),
            shapes.points(),
        )?;
        let boxes = boxes(alloc, &rings)?;
        Ok(Features { rings, boxes })
    }

    /// How many there are.
    pub fn count(&self) -> usize {
        self.boxes.len()
    }

    /// The rings of a feature; none where there is no such feature.
    pub fn rings_of(&self, feature: usize) -> Option<&Rings>
        ensures some { IfSome result (λ rings. slice_get self.now feature ≡ Some rings.now) }
        ensures none { IfNone result (length self.now ≤ feature) }
    {
        self.rings.get(feature)
    }

    /// The box of a feature.
    pub fn extent_of(&self, feature: usize) -> Core {
        match self.boxes.get(feature) {
            Some(own) => *own,
            None => nothing(),
        }
    }
}
