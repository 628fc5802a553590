//! The wanted layers, in order, as the input of a tile takes them.
ghost use Rattle.std.specs.Prelude.{◌≡◌, ◌++◌, ◌∷◌, [], ◌≤◌, map, take, filter_map, option_copied, IfOk, OnOk};
ghost use Rattle.overlay_terms.specs.Layers.{base_of, layers_max};
ghost use Rattle.layer_expr.specs.StepList.{reached, reached_of};
ghost use Rattle.layer_book.specs.Layer.{content, named_layer, rings_in};
ghost use Rattle.layer_book.specs.Question.{marked_layers};

use crate::layer::Layer;
use crate::layers::Layers;
use layer_expr::name::Name;
use layer_expr::{Expr, MAX_LAYERS};
use plane_base::BaseLayer;
use std::alloc::{AllocError, Global};

impl Layers {
    /// The base layers at the wanted indices.
    pub(crate) fn wanted_bases<'a>(
        &'a self,
        alloc: Global,
        wanted: &[bool; MAX_LAYERS],
    ) -> Result<Vec<&'a BaseLayer>, AllocError>
        ensures { IfOk result (λ bases. map (λ b. b.now) bases.items
            ≡ map (λ b. b.1) (filter_map base_of (marked_layers wanted.now self.now))) }
    {
        let mut bases = Vec::new(alloc);
        for i in 0..self.len() {
            if let Some((_, layer)) = self.at(i) {
                if wanted[i] {
                    add_base(&mut bases, layer)?;
                }
            }
        }
        Ok(bases)
    }

    /// The layers at the wanted indices, each with its name and, where it is derived, its expression, and how many they
    /// are. The places after them hold a name that is handed in. It takes no memory.
    pub(crate) fn wanted_layers<'a>(
        &'a self,
        blank: &'a Name,
        wanted: &[bool; MAX_LAYERS],
    ) -> ([(&'a Name, Option<&'a Expr>); MAX_LAYERS], usize)
        ensures layers { reached (take result.1 result.0) ≡ map reached_of (marked_layers wanted.now self.now) }
        ensures few { result.1 ≤ layers_max }
    {
        let mut layers = [(blank, None); MAX_LAYERS];
        let mut count = 0;
        for i in 0..self.len() {
            if let Some((name, layer)) = self.at(i) {
                if wanted[i] {
                    layers[count] = with_expression(name, layer);
                    count += 1;
                }
            }
        }
        (layers, count)
    }
}

/// Adds a layer, if it is a base layer.
fn add_base<'a>(bases: &mut Vec<&'a BaseLayer>, layer: &'a Layer) -> Result<(), AllocError>
    ensures { OnOk result (map (λ b. b.now) bases.new.items
        ≡ map (λ b. b.now) bases.old.items ++ rings_in (content layer.now)) }
{
    if let Layer::Base(rings) = layer {
        bases.push(rings)?;
    }
    Ok(())
}

/// A layer's name and, where it is derived, its expression.
fn with_expression<'a>(name: &'a Name, layer: &'a Layer) -> (&'a Name, Option<&'a Expr>)
    ensures { reached (result ∷ []) ≡ reached_of (named_layer (name.now, layer.now)) ∷ [] }
{
    match layer {
        Layer::Base(_) => (name, None),
        Layer::Derived(expression) => (name, Some(expression)),
    }
}
