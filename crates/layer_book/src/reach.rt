//! Which layers a layer reaches.
ghost use Rattle.std.specs.Prelude.{◌≡◌, ◌<◌, length, slice_set, true, if◌then◌else◌};
ghost use Rattle.overlay_terms.specs.Trees.{leaves};
ghost use Rattle.overlay_terms.specs.Commands.{index_of, stands};
ghost use Rattle.overlay_terms.specs.Layers.{Name, layers_in_reach};
ghost use Rattle.overlay_terms.specs.Orderly.{used_names};
ghost use Rattle.layer_expr.specs.Expr.{tree};
ghost use Rattle.layer_book.specs.Layer.{IsBook};
ghost use Rattle.layer_book.specs.Question.{at_index, content_at, is_wanted, marked};
ghost use Rattle.layer_book.specs.Question.{marked_layers, NamesAreWanted, StandsAt};

use crate::layer::Layer;
use crate::layers::Layers;
use layer_expr::MAX_LAYERS;
use layer_expr::expr::Node;
use layer_expr::name::Name;

impl Layers {
    /// The layers that a layer reaches, by their indices: itself, what it names, what those name.
    pub fn reach(&self, name: &Name) -> [bool; MAX_LAYERS]
        requires { stands self.now name.now ≡ true }
        ensures asked { is_wanted self.now result name.now ≡ true }
        ensures closed { NamesAreWanted self.now result }
        ensures room { length result ≡ MAX_LAYERS }
        // Nothing else is marked.
        ensures exactly { marked_layers result self.now ≡ layers_in_reach self.now name.now }
        ensures valid { IsBook self.now }
    {
        self.reach_of(self.index_of(name))
    }

    /// The layers that the layer at an index reaches, by their indices.
    pub(crate) fn reach_of(&self, index: usize) -> [bool; MAX_LAYERS]
        ensures asked { (name : Name) → StandsAt self.now index name → is_wanted self.now result name ≡ true }
        ensures closed { NamesAreWanted self.now result }
        ensures room { length result ≡ MAX_LAYERS }
        // Nothing else is marked.
        ensures exactly { (name : Name) → StandsAt self.now index name
            → marked_layers result self.now ≡ layers_in_reach self.now name }
        ensures valid { IsBook self.now }
    {
        let mut wanted = [false; MAX_LAYERS];
        mark(&mut wanted, index);
        for i in (0..self.len()).rev() {
            self.mark_used(i, &mut wanted);
        }
        wanted
    }

    /// Marks what a layer names, if it is marked itself.
    fn mark_used(&self, i: usize, wanted: &mut [bool; MAX_LAYERS])
        requires { i < MAX_LAYERS }
        ensures { wanted.new ≡ (if at_index wanted.old i
            then marked self.now wanted.old (used_names (content_at self.now i)) else wanted.old) }
    {
        if !wanted[i] {
            return;
        }
        if let Some((_, Layer::Derived(expression))) = self.at(i) {
            self.mark_names(expression.root(), wanted);
        }
    }

    /// Marks the names below a node.
    fn mark_names(&self, node: &Node, wanted: &mut [bool; MAX_LAYERS])
        ensures { wanted.new ≡ marked self.now wanted.old (leaves (tree node.now)) }
    {
        match node {
            Node::Leaf(name) => mark(wanted, self.index_of(name)),
            Node::Combine(_, left, right) => {
                self.mark_names(left, wanted);
                self.mark_names(right, wanted);
            }
        }
    }
}

fn mark(wanted: &mut [bool; MAX_LAYERS], index: usize)
    ensures { wanted.new ≡ slice_set wanted.old index true }
{
    if index < wanted.len() {
        wanted[index] = true;
    }
}
