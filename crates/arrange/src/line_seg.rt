//! Segments in the order of their lines.
ghost use Rattle.std.specs.Prelude.{◌≡◌, ◌<◌};
ghost use Rattle.overlay_terms.specs.Layers.{layers_max};
ghost use Rattle.overlay_terms.specs.TileLaws.{IsProper};

use crate::marked_seg::MarkedSeg;
use exact_point::side::side;
use exact_point::{HPoint, direction_cmp};
use std::cmp::Ordering;

/// A segment with its layer. The order is by direction, the vertical ones last, then from the lowest
/// line to the highest; segments on one line are equal.
#[derive(Clone, Copy)]
pub(crate) struct LineSeg {
    pub(crate) marked: MarkedSeg,
    pub(crate) ghost few: { marked.layer < layers_max },
    pub(crate) ghost proper: { IsProper marked.seg },
}

impl LineSeg {
    pub(crate) fn of(marked: MarkedSeg) -> LineSeg
        requires few { marked.layer < layers_max }
        requires proper { IsProper marked.seg }
        ensures { result.marked ≡ marked }
    {
        LineSeg { marked }
    }
}

impl PartialEq for LineSeg {
    ghost use Rattle.arrange.specs.Lines.{same_line, same_line_laws};

    ghost eq = { same_line };

    ghost laws = { same_line_laws };

    fn eq(&self, other: &LineSeg) -> bool {
        self.cmp(other) == Ordering::Equal
    }
}

impl Eq for LineSeg {
    ghost use Rattle.arrange.specs.Lines.{same_line_equiv};

    ghost laws = { same_line_equiv };
}

impl PartialOrd for LineSeg {
    ghost use Rattle.arrange.specs.Lines.{line_cmp, line_po};
    ghost use Rattle.std.specs.Ordering.{as_partial_cmp};

    ghost partial_cmp = { as_partial_cmp line_cmp };

    ghost laws = { line_po };

    fn partial_cmp(&self, other: &LineSeg) -> Option<Ordering> {
        Some(self.cmp(other))
    }
}

impl Ord for LineSeg {
    ghost use Rattle.arrange.specs.Lines.{line_cmp, line_total};
    ghost use Rattle.std.specs.Prelude.{refl};

    ghost cmp = { line_cmp };

    ghost total = { line_total };

    ghost matches_partial_cmp = { λ p q. refl };

    ghost matches_eq = { λ p q. refl };

    fn cmp(&self, other: &LineSeg) -> Ordering {
        let turn = direction_cmp(&self.marked.seg, &other.marked.seg);
        if turn.is_ne() {
            return turn;
        }
        side(&self.marked.seg, &HPoint::of(other.marked.seg.left())).reverse()
    }
}
