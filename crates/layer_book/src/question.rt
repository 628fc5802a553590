//! What is asked of each layer at a point, answered from the first layer to the last.
ghost use Rattle.std.specs.Prelude.{◌≡◌, ◌≤◌, ◌<◌, length, slice_get, unwrap_or, false};
ghost use Rattle.std.specs.List.{list_any};
ghost use Rattle.overlay_terms.specs.Trees.{truth, leaves};
ghost use Rattle.overlay_terms.specs.Commands.{index_of};
ghost use Rattle.exact_point.specs.Place.{place};
ghost use Rattle.point_looks.specs.Spot.{point_of};
ghost use Rattle.layer_expr.specs.Expr.{tree};
ghost use Rattle.layer_book.specs.Layer.{content, IsBook};
ghost use Rattle.layer_book.specs.Question.{IsInside, IsEdge, answers, at_index, content_answer};
ghost use Rattle.layer_book.specs.Question.{content_at, if_wanted, labelled, wanted_layers};

use crate::layer::Layer;
use crate::layers::Layers;
use exact_point::HPoint;
use layer_expr::MAX_LAYERS;
use layer_expr::expr::{Node, Operation};
use layer_expr::name::Name;
use point_looks::{Seen, Spot, look_at_blocks};

/// What is known of each layer at a point, by its index: whether it holds the point, and whether a segment that it
/// reaches does.
#[derive(Clone, Copy, Debug)]
pub struct Known {
    pub inside: [bool; MAX_LAYERS],
    pub edge: [bool; MAX_LAYERS],
}

impl Layers {
    /// The answers of each layer. One that is not wanted counts as a layer of no rings. Each wanted base layer is
    /// looked at once, in its blocks of segments.
    pub fn answers(&self, wanted: &[bool; MAX_LAYERS], point: &HPoint) -> Known
        ensures inside { labelled self.now result.inside
            ≡ answers IsInside (wanted_layers wanted.now self.now) (place point.now) }
        ensures edge { labelled self.now result.edge
            ≡ answers IsEdge (wanted_layers wanted.now self.now) (place point.now) }
        ensures valid { IsBook self.now }
    {
        let spot = Spot::of(*point);
        let mut inside = [false; MAX_LAYERS];
        let mut edge = [false; MAX_LAYERS];
        for i in 0..self.len() {
            let seen = self.answer_at(i, wanted[i], &inside[..i], &edge[..i], &spot);
            inside[i] = seen.inside;
            edge[i] = seen.edge;
        }
        Known { inside, edge }
    }

    /// The answers of one layer, from those of the layers before it.
    fn answer_at(&self, i: usize, wanted: bool, inside: &[bool], edge: &[bool], spot: &Spot) -> Seen
        requires insides { length inside.now ≤ length self.now }
        requires edges { length edge.now ≤ length self.now }
        ensures inside { result.inside
            ≡ content_answer IsInside (point_of spot.now) (labelled self.now inside.now)
            (if_wanted wanted (content_at self.now i)) }
        ensures edge { result.edge
            ≡ content_answer IsEdge (point_of spot.now) (labelled self.now edge.now)
            (if_wanted wanted (content_at self.now i)) }
    {
        match self.at(i) {
            Some((_, Layer::Base(rings))) if wanted => look_at_blocks(rings.blocks(), spot),
            Some((_, Layer::Derived(expression))) if wanted => Seen {
                inside: self.node_inside(expression.root(), inside),
                edge: self.node_edge(expression.root(), edge),
            },
            _ => Seen::NOTHING,
        }
    }

    fn node_inside(&self, node: &Node, known: &[bool]) -> bool
        ensures { result ≡ truth (λ used. unwrap_or (slice_get known.now (index_of self.now used)) false)
            (tree node.now) }
    {
        match node {
            Node::Leaf(used) => known_at(known, self.index_of(used)),
            Node::Combine(operation, left, right) => {
                let l = self.node_inside(left, known);
                let r = self.node_inside(right, known);
                match operation {
                    Operation::Intersection => l && r,
                    Operation::Union => l || r,
                    Operation::Difference => l && !r,
                    Operation::SymDifference => l ^ r,
                }
            }
        }
    }

    /// Whether one of the names below a node has the answer true.
    pub(crate) fn node_edge(&self, node: &Node, known: &[bool]) -> bool
        ensures { result ≡ list_any (λ used. unwrap_or (slice_get known.now (index_of self.now used)) false)
            (leaves (tree node.now)) }
    {
        match node {
            Node::Leaf(used) => known_at(known, self.index_of(used)),
            Node::Combine(_, left, right) => {
                self.node_edge(left, known) || self.node_edge(right, known)
            }
        }
    }
}

/// What is known of the layer at an index.
pub(crate) fn known_at(known: &[bool], index: usize) -> bool
    ensures { result ≡ at_index known.now index }
{
    known.get(index).copied().unwrap_or(false)
}
