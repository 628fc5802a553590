//! Rings, and the base layers that they make.
ghost use Rattle.std.specs.Prelude.{◌≡◌, ◌≤◌, ◌++◌};
ghost use Rattle.std.specs.Prelude.{nat_le, None, List, length, IfSome, IfOk, IsNone, OnOk, IsErrOf, IsOkUnless, All};
ghost use Rattle.overlay_terms.specs.Plane.{WholePoint, Segment, segments_of};
ghost use Rattle.overlay_terms.specs.Plane.{ring_segments, ring_step_count, steps_max};
ghost use Rattle.overlay_terms.specs.InputLaws.{IsRing};
ghost use Rattle.plane_base.specs.BaseLayer.{rings_fault, ring_fault, first_ring_fault, PointsInRange};

use crate::blocks::Blocks;
use crate::fault::PlaneFault;
use crate::point::{Pt, Seg};
use std::alloc::{AllocError, Global};
use std::marker::Model;

/// The most steps that the rings of a base layer have.
pub const MAX_STEPS: usize = 2048;

/// A closed line, as the list of its points.
#[derive(Debug, Drop)]
pub struct Ring {
    points: Vec<Pt>,
}

impl Model for Ring {
    ghost Value = { List WholePoint };

    ghost view = { λ r. r.points.items };
}

impl Ring {
    pub fn new(points: Vec<Pt>) -> Ring
        ensures { result ≡ points.items }
    {
        Ring { points }
    }

    pub fn points(&self) -> &[Pt]
        ensures { result.now ≡ self.now }
    {
        &self.points
    }

    /// What is wrong with the ring, which has this index among its layer's rings.
    fn fault(&self, at: usize) -> Option<PlaneFault>
        ensures { result ≡ ring_fault at self.now }
    {
        let points = self.points();
        if points.len() < 4 {
            return Some(PlaneFault::RingShort(at));
        }
        if points[0] == points[points.len() - 1] {
            None
        } else {
            Some(PlaneFault::RingOpen(at))
        }
    }
}

/// Adds the segments of a ring at the end.
fn add_segments(segs: &mut Vec<Seg>, ring: &[Pt]) -> Result<(), AllocError>
    ensures added { OnOk result (segs.new.items ≡ segs.old.items ++ ring_segments ring.now) }
    ensures in_range { OnOk result (PointsInRange ring.now) }
{
    for i in 1..ring.len() {
        let (from, to) = (ring[i - 1], ring[i]);
        // Both points are in range by their type: the clauses rest on that.
        let _ = from.known();
        let _ = to.known();
        if let Some(seg) = Seg::of(from, to) {
            segs.push(seg)?;
        }
    }
    Ok(())
}

/// The first thing that is wrong with a ring.
fn first_fault(rings: &[Ring]) -> Option<PlaneFault>
    ensures { result ≡ first_ring_fault 0 rings.now }
{
    for (at, ring) in rings.iter().enumerate() {
        if let Some(fault) = ring.fault(at) {
            return Some(fault);
        }
    }
    None
}

/// Whether the rings have no more steps than a base layer may.
fn is_within_limit(rings: &[Ring]) -> bool
    ensures { result ≡ nat_le (ring_step_count rings.now) steps_max }
{
    let mut steps = 0;
    for ring in rings {
        let more = ring.points().len().saturating_sub(1);
        if more > MAX_STEPS - steps {
            return false;
        }
        steps += more;
    }
    true
}

/// Closed rings and their segments, which are also kept in blocks.
#[derive(Debug, Drop)]
pub struct BaseLayer {
    rings: Vec<Ring>,
    blocks: Blocks,
}

impl Model for BaseLayer {
    ghost Value = { List (List WholePoint) };

    ghost view = { λ b. b.rings.items };

    ghost invariant = { λ b. (rings_fault b.rings.items ≡ None) × (b.blocks ≡ segments_of b.rings.items)
        × All IsRing b.rings.items };
}

impl BaseLayer {
    /// The base layer of these rings, if each is closed and long enough and all together have few
    /// enough steps.
    pub fn new(alloc: Global, rings: Vec<Ring>) -> Result<BaseLayer, PlaneFault>
        ensures ok { IfOk result (λ layer. layer ≡ rings.items) }
        ensures refused { IfSome (rings_fault rings.items) (IsErrOf result) }
        ensures accepted { IsNone (rings_fault rings.items) → IsOkUnless result PlaneFault.OutOfMemory }
    {
        if let Some(fault) = first_fault(&rings) {
            return Err(fault);
        }
        if !is_within_limit(&rings) {
            return Err(PlaneFault::TooManySegments);
        }
        let mut segs = Vec::new(alloc);
        for ring in &rings {
            add_segments(&mut segs, ring.points())?;
        }
        let blocks = Blocks::new(alloc, segs)?;
        Ok(BaseLayer { rings, blocks })
    }

    pub fn rings(&self) -> &[Ring]
        ensures value { result.now ≡ self.now }
        ensures valid { rings_fault result.now ≡ None }
        ensures rings { All IsRing self.now }
    {
        &self.rings
    }

    /// The segments of all rings, with repeats.
    pub fn segs(&self) -> &[Seg]
        ensures value { result.now ≡ segments_of self.now }
        ensures valid { rings_fault self.now ≡ None }
    {
        self.blocks.segs()
    }

    /// The segments in blocks.
    pub fn blocks(&self) -> &Blocks
        ensures { result.now ≡ segments_of self.now }
    {
        &self.blocks
    }
}
