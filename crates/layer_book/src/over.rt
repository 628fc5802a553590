//! Which layers are over a layer.
ghost use Rattle.std.specs.Prelude.{◌≡◌, ◌≤◌, length, slice_get, Some};
ghost use Rattle.overlay_terms.specs.Layers.{Layer as Named};
ghost use Rattle.overlay_terms.specs.Touched.{reaches_name};
ghost use Rattle.layer_book.specs.Question.{at_index, labelled};
ghost use Rattle.layer_book.specs.Reaching.{layer_reaches};

use crate::layer::Layer;
use crate::layers::Layers;
use layer_expr::MAX_LAYERS;
use layer_expr::name::Name;

impl Layers {
    /// Which layers reach the one with a name, itself among them, by their indices. A layer names earlier ones alone,
    /// so one pass from the first to the last finds them.
    pub(crate) fn layers_over(&self, name: &Name) -> [bool; MAX_LAYERS]
        ensures room { length result ≡ MAX_LAYERS }
        ensures marks { (i : _) (layer : Named) → slice_get self.now i ≡ Some layer
            → at_index result i ≡ reaches_name self.now layer.name name.now }
    {
        let mut over = [false; MAX_LAYERS];
        if !self.stands(name) {
            return over;
        }
        for i in 0..self.len() {
            over[i] = self.reaches_at(i, name, &over[..i]);
        }
        over
    }

    /// Whether the layer at an index has the name, or names one that is known to reach it.
    fn reaches_at(&self, i: usize, name: &Name, known: &[bool]) -> bool
        requires { length known.now ≤ length self.now }
        ensures { (layer : Named) → slice_get self.now i ≡ Some layer
            → result ≡ layer_reaches name.now (labelled self.now known.now) layer }
    {
        match self.at(i) {
            Some((own, Layer::Base(_))) => own == name,
            Some((own, Layer::Derived(expression))) => {
                own == name || self.node_edge(expression.root(), known)
            }
            None => false,
        }
    }
}
