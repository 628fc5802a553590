//! The ends of segments on one line.
ghost use Rattle.std.specs.Prelude.{◌≡◌};
ghost use Rattle.arrange.specs.LineEnds.{left_end, right_end};
ghost use Rattle.arrange.specs.Marked.{marked_of};

use crate::marked_seg::MarkedSeg;
use plane_base::Pt;

/// An end of a segment, with the number of the segment's base layer. A segment opens at its left end
/// and closes at its right one.
#[derive(Clone, Copy)]
pub(crate) struct LineEnd {
    pub(crate) at: Pt,
    pub(crate) layer: u8,
    pub(crate) opens: bool,
}

impl LineEnd {
    pub(crate) fn left_of(marked: &MarkedSeg) -> LineEnd
        ensures { result ≡ left_end (marked_of marked.now) }
    {
        LineEnd {
            at: marked.seg.left(),
            layer: marked.layer,
            opens: true,
        }
    }

    pub(crate) fn right_of(marked: &MarkedSeg) -> LineEnd
        ensures { result ≡ right_end (marked_of marked.now) }
    {
        LineEnd {
            at: marked.seg.right(),
            layer: marked.layer,
            opens: false,
        }
    }
}
