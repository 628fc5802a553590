//! The ends that a pass along a line has met.
ghost use Rattle.std.specs.Prelude.{◌≡◌, ◌+◌, ◌<◌, ◌^◌, List, [], ◌∷◌, ◌++◌};
ghost use Rattle.overlay_terms.specs.Layers.{layers_max};
ghost use Rattle.arrange.specs.LineEnds.{IsCounted, open_unit};
ghost use Rattle.arrange.specs.declared.line_end.LineEnd.{LineEnd};

use crate::line_end::LineEnd;
use crate::unit::Unit;
use plane_base::{Pt, Seg};

/// Ends along a line, counted: how many segments begin there and how many end, with a bit for each
/// base layer that has an odd number of the ends.
#[derive(Clone, Copy)]
pub(crate) struct PassedEnds {
    begun: usize,
    ended: usize,
    mask: u32,
}

impl PassedEnds {
    pub(crate) fn none() -> PassedEnds
        ensures { IsCounted [] result }
    {
        PassedEnds {
            begun: 0,
            ended: 0,
            mask: 0,
        }
    }

    /// Counts the next end.
    pub(crate) fn add(&mut self, end: &LineEnd)
        requires few { end.now.layer < layers_max }
        requires begun { self.old.begun + 1 < 2 ^ 64 }
        requires ended { self.old.ended + 1 < 2 ^ 64 }
        ensures { (ends : List LineEnd) → IsCounted ends self.old → IsCounted (ends ++ end.now ∷ []) self.new }
    {
        self.mask ^= 1 << end.layer;
        if end.opens {
            self.begun += 1;
        } else {
            self.ended += 1;
        }
    }

    /// The stretch from an end to the next as a unit, if the ends are apart and a segment is open there.
    pub(crate) fn unit_between(&self, from: Pt, to: Pt) -> Option<Unit>
        ensures { result ≡ open_unit self.now from to }
    {
        if self.begun <= self.ended {
            return None;
        }
        let seg = Seg::of(from, to)?;
        Some(Unit {
            seg,
            mask: self.mask,
        })
    }
}
