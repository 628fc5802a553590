//! Whether a point is a node of some segments.
ghost use Rattle.std.specs.Prelude.{◌≡◌, ◌&&◌, ◌||◌, ◌*ℤ◌, not, map};
ghost use Rattle.std.specs.List.{list_any};
ghost use Rattle.std.specs.Ordering.{int_eq};
ghost use Rattle.overlay_terms.specs.Column.{border, columns};
ghost use Rattle.overlay_terms.specs.Plane.{is_on, same_place, whole};
ghost use Rattle.overlay_terms.specs.Tiles.{is_node, is_on_border, is_parallel, is_vertical};
ghost use Rattle.exact_point.specs.Place.{place};

use crate::marked_seg::MarkedSeg;
use exact_point::{HPoint, border_side, direction_cmp, on};
use plane_base::{COLUMN_COUNT, Column, Pt, Seg};

/// Whether a point is an end of a segment, a crossing, or a place on a border.
#[tactic(auto, using(crate::proofs::NodeTests::node_by_end, crate::proofs::NodeTests::node_by_crossing, crate::proofs::NodeTests::node_by_border))]
pub(crate) fn is_node(marked: &[MarkedSeg], p: &HPoint) -> bool
    ensures { result ≡ is_node (map (λ m. m.seg) marked.now) (place p.now) }
{
    if is_end(marked, p) {
        return true;
    }
    if is_crossing(marked, p) {
        return true;
    }
    is_on_border(marked, p)
}

fn is_end(marked: &[MarkedSeg], p: &HPoint) -> bool
    ensures { result ≡ list_any
        (λ m. same_place (place p.now) (whole m.seg.left) || same_place (place p.now) (whole m.seg.right)) marked.now }
{
    marked
        .iter()
        .any(|m| is_at(p, m.seg.left()) || is_at(p, m.seg.right()))
}

/// Whether two segments that are not parallel hold the point.
fn is_crossing(marked: &[MarkedSeg], p: &HPoint) -> bool
    ensures { result ≡ list_any
        (λ m. is_on m.seg (place p.now)
        && list_any (λ t. is_on t.seg (place p.now) && not (is_parallel m.seg t.seg)) marked.now) marked.now }
{
    marked
        .iter()
        .any(|m| on(&m.seg, p) && is_crossed(&m.seg, marked, p))
}

/// Whether a segment that is not parallel to another holds the point.
fn is_crossed(seg: &Seg, marked: &[MarkedSeg], p: &HPoint) -> bool
    ensures { result ≡ list_any (λ t. is_on t.seg (place p.now) && not (is_parallel seg.now t.seg)) marked.now }
{
    marked
        .iter()
        .any(|t| on(&t.seg, p) && !is_parallel(seg, &t.seg))
}

/// Whether the point is on a border and on a segment that is not vertical.
#[tactic(auto, using(crate::proofs::NodeTests::on_border_by))]
fn is_on_border(marked: &[MarkedSeg], p: &HPoint) -> bool
    ensures { result ≡ is_on_border (map (λ m. m.seg) marked.now) (place p.now) }
{
    if !is_at_border(p) {
        return false;
    }
    is_on_slanted(marked, p)
}

/// Whether a segment that is not vertical holds the point.
fn is_on_slanted(marked: &[MarkedSeg], p: &HPoint) -> bool
    ensures { result ≡ list_any (λ m. is_on m.seg (place p.now) && not (is_vertical m.seg)) marked.now }
{
    marked.iter().any(|m| on(&m.seg, p) && !is_vertical(&m.seg))
}

/// Whether a border of a column has the x of the point.
fn is_at_border(p: &HPoint) -> bool
    ensures { result ≡ list_any (λ k. int_eq p.now.x (border k *ℤ p.now.w)) columns }
{
    for number in 0..COLUMN_COUNT {
        let column = Column::new(u64::from(number)).unwrap();
        if has_border_at(column, p) {
            return true;
        }
    }
    false
}

/// Whether the border of a column has the x of the point.
fn has_border_at(column: Column, p: &HPoint) -> bool
    ensures { result ≡ int_eq p.now.x (border column *ℤ p.now.w) }
{
    border_side(column, p).is_eq()
}

/// Whether a point is at a place with whole coordinates.
#[tactic(auto, using(crate::proofs::NodeTests::vertex_is))]
fn is_at(p: &HPoint, vertex: Pt) -> bool
    ensures { result ≡ same_place (place p.now) (whole vertex) }
{
    *p == HPoint::of(vertex)
}

#[tactic(auto, using(crate::proofs::NodeTests::parallel_is))]
fn is_parallel(seg: &Seg, other: &Seg) -> bool
    ensures { result ≡ is_parallel seg.now other.now }
{
    direction_cmp(seg, other).is_eq()
}

fn is_vertical(seg: &Seg) -> bool
    ensures { result ≡ is_vertical seg.now }
{
    seg.left().x() == seg.right().x()
}
