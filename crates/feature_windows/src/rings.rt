//! Rings in a row.
ghost use Rattle.std.specs.Prelude.{◌≡◌, ◌≤◌, ◌++◌, ◌∷◌, [], true, false, length, take, drop, sum_by, All, IfOk, OnOk};
ghost use Rattle.overlay_terms.specs.Plane.{is_closed};
ghost use Rattle.overlay_terms.specs.InputLaws.{IsClosed};
ghost use Rattle.block_reading.specs.Block.{dealt};

use crate::boxes::extent;
use block_reading::{Core, FarPoint};
use map_window::FarPt;
use std::alloc::{AllocError, Global};
use std::marker::Model;

/// Rings, as so many points each, in a row.
#[derive(Debug, Drop)]
pub struct Rings {
    counts: Vec<u32>,
    points: Vec<FarPoint>,
}

impl Model for Rings {
    ghost use Rattle.std.specs.Prelude.{◌≡◌, List, length, sum_by};
    ghost use Rattle.overlay_terms.specs.Plane.{WholePoint};
    ghost use Rattle.block_reading.specs.Block.{dealt};

    ghost Value = { List (List WholePoint) };

    ghost view = { λ r. dealt r.counts.items r.points.items };

    ghost invariant = { λ r. sum_by (λ n. n) r.counts.items ≡ length r.points.items };
}

/// The first so many points, or all where there are fewer, and those after them.
pub fn parted(points: &[FarPoint], count: u32) -> (&[FarPoint], &[FarPoint])
    ensures first { result.0.now ≡ take count points.now }
    ensures rest { result.1.now ≡ drop count points.now }
{
    let count = count as usize;
    if points.len() < count {
        return (points, &points[points.len()..]);
    }
    points.split_at(count)
}

/// The points of rings of so many points each, and those after them.
pub(crate) fn split_points<'a>(
    counts: &[u32],
    points: &'a [FarPoint],
) -> (&'a [FarPoint], &'a [FarPoint])
    ensures first { result.0.now ≡ take (sum_by (λ n. n) counts.now) points.now }
    ensures rest { result.1.now ≡ drop (sum_by (λ n. n) counts.now) points.now }
{
    let mut rest = points;
    for count in counts {
        let (_, after) = parted(rest, *count);
        rest = after;
    }
    points.split_at(points.len() - rest.len())
}

/// The same point as one of a map.
fn as_far(p: FarPoint) -> FarPt
    ensures { result ≡ p }
{
    FarPt::new(p.x, p.y)
}

/// Whether the last of some points is the first.
fn is_closed(points: &[FarPoint]) -> bool
    requires { 1 ≤ length points.now }
    ensures { result ≡ is_closed points.now }
{
    if as_far(points[0]) == as_far(points[points.len() - 1]) {
        true
    } else {
        false
    }
}

/// Whether a line of points does not end where it begins.
pub(crate) fn is_open(points: &[FarPoint]) -> bool
    ensures { result ≡ false → is_closed points.now ≡ true }
{
    if points.is_empty() {
        return false;
    }
    !is_closed(points)
}

/// Whether a ring is closed, and has four points or more.
fn is_ring(points: &[FarPoint]) -> bool
    ensures { result ≡ true → is_closed points.now ≡ true }
{
    if points.len() < 4 {
        return false;
    }
    is_closed(points)
}

impl Rings {
    /// No rings.
    pub(crate) fn none(alloc: Global) -> Rings
        ensures { result ≡ [] }
    {
        Rings {
            counts: Vec::new(alloc),
            points: Vec::new(alloc),
        }
    }

    /// How many points each has, and all points in a row.
    pub fn lent(&self) -> (&[u32], &[FarPoint])
        ensures { dealt result.0.now result.1.now ≡ self.now }
    {
        (&self.counts, &self.points)
    }

    /// Rings of so many points each, from the front of some points.
    pub(crate) fn of(
        alloc: Global,
        counts: &[u32],
        points: &[FarPoint],
    ) -> Result<Rings, AllocError>
        ensures { IfOk result (λ rings. rings ≡ dealt counts.now points.now) }
    {
        let mut rings = Rings::none(alloc);
        let mut rest = points;
        for count in counts {
            let (own, after) = parted(rest, *count);
            rings.add(own)?;
            rest = after;
        }
        Ok(rings)
    }

    /// Adds a ring.
    pub(crate) fn add(&mut self, points: &[FarPoint]) -> Result<(), AllocError>
        ensures { OnOk result (self.new ≡ self.old ++ points.now ∷ []) }
    {
        let Ok(count) = u32::try_from(points.len()) else {
            return Err(AllocError);
        };
        self.counts.push(count)?;
        if let Err(e) = self.points.extend_from_slice(points) {
            let _ = self.counts.pop();
            return Err(e);
        }
        Ok(())
    }

    /// Whether all are closed, and have four points or more.
    pub(crate) fn are_rings(&self) -> bool
        ensures { result ≡ true → All IsClosed self.now }
    {
        are_rings(&self.counts, &self.points)
    }

    /// The box around them.
    pub(crate) fn extent(&self) -> Core {
        extent(&self.points)
    }
}

/// Whether rings in a row are closed, and have four points or more.
fn are_rings(counts: &[u32], points: &[FarPoint]) -> bool
    ensures { result ≡ true → All IsClosed (dealt counts.now points.now) }
{
    let mut rest = points;
    for count in counts {
        let (ring, after) = parted(rest, *count);
        if !is_ring(ring) {
            return false;
        }
        rest = after;
    }
    true
}
