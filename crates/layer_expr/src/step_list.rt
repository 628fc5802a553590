//! Layers in reach as a list of definitions, with numbers for names.
ghost use Rattle.std.specs.Prelude.{◌≡◌, ℕ, Bool, false, ◌≤◌, ◌<◌, length, filter, position};
ghost use Rattle.std.specs.Prelude.{is_none, is_some, not, bytes_eq, take_while, IfOk, IfSome, map};
ghost use Rattle.std.specs.Cmp.Lexicographic.{pointwise};
ghost use Rattle.overlay_terms.specs.Layers.{layers_max};
ghost use Rattle.overlay_terms.specs.SameInput.{same_definition, same_steps};
ghost use Rattle.overlay_terms.specs.Trees.{relabel, steps_value, mask_bits};
ghost use Rattle.layer_expr.specs.Expr.{tree};
ghost use Rattle.layer_expr.specs.SameSteps.{SameAreEqual};
ghost use Rattle.layer_expr.specs.Steps.{source, step_tree};
ghost use Rattle.layer_expr.specs.StepList.{reached, source_among, numbered_steps, evaluated, IsOrdered};
ghost use Rattle.layer_expr.specs.StepList.{ReachesAll, NumberedByContent, NumberedAreInReach, StepsEvaluate};

use crate::expr::{Expr, Node};
use crate::name::Name;
use crate::step_value::{is_bit_set, last_value};
use crate::steps::{BaseBit, Source, StepNode};
use std::alloc::{AllocError, Global};
use std::marker::Model;

/// The definitions that a layer reaches, in order, the layer's own last. Leaves are numbers of base layers and of
/// earlier definitions: no name is kept.
#[derive(Debug, Drop)]
pub struct StepList {
    bases: u8,
    definitions: Vec<StepNode>,
}

impl Model for StepList {
    ghost use Rattle.std.specs.Prelude.{map};
    ghost use Rattle.overlay_terms.specs.Trees.{Steps};
    ghost use Rattle.overlay_terms.specs.TreeCode.{steps_code};

    ghost Value = { Steps };

    ghost coded = { steps_code };

    ghost use Rattle.layer_expr.specs.Steps.{step_tree};
    ghost use Rattle.layer_expr.specs.StepList.{IsStepList};

    ghost view = { λ s. record { bases = s.bases; definitions = map step_tree s.definitions.items } };

    ghost invariant = { λ s. IsStepList (record { bases = s.bases; definitions = map step_tree s.definitions.items }) };
}

impl StepList {
    /// The definitions among layers in reach, in order of creation, the layer asked last. A layer with no expression
    /// is a base layer.
    pub fn of(alloc: Global, layers: &[(&Name, Option<&Expr>)]) -> Result<StepList, AllocError>
        requires few { length layers.now ≤ layers_max }
        requires ordered { IsOrdered (reached layers.now) }
        requires reaches { ReachesAll (reached layers.now) }
        ensures steps { IfOk result (λ steps. steps ≡ numbered_steps (reached layers.now)) }

        // Its value is that of the last layer, by Boolean evaluation in order.
        ensures value { IfOk result
            (λ steps. (bits : ℕ → Bool) → steps_value steps bits ≡ evaluated (reached layers.now) bits) }
    {
        let bases = base_count(layers) as u8;
        let definitions = definitions_among(alloc, layers)?;
        Ok(StepList { bases, definitions })
    }

    /// How many base layers there are: bits of a mask, from 0.
    pub fn bases(&self) -> u8
        ensures value { result ≡ self.now.bases }
        ensures few { result ≤ layers_max }
    {
        self.bases
    }

    /// What the last layer is, where bit k of the mask says whether base layer k holds.
    pub fn value(&self, mask: u32) -> bool
        ensures value { result ≡ steps_value self.now (mask_bits mask) }

        // Only the bits of as many layers as there may be count.
        ensures known { (bits : ℕ → Bool) → ((k : ℕ) → k < layers_max → mask_bits mask k ≡ bits k)
            → result ≡ steps_value self.now bits }
        ensures nothing { mask ≡ 0 → result ≡ false }
    {
        let last_base = self.bases.saturating_sub(1);
        last_value(&self.definitions, mask, is_bit_set(mask, last_base))
    }

    /// Whether it is what layers in reach give. They are compared by name and expression, with no memory.
    pub fn is_of(&self, layers: &[(&Name, Option<&Expr>)]) -> bool
        requires { length layers.now ≤ layers_max }
        ensures { result ≡ same_steps self.now (numbered_steps (reached layers.now)) }
    {
        let bases = base_count(layers);
        usize::from(self.bases) == bases && are_numbered(&self.definitions, layers)
    }

    /// An equal list in memory of its own.
    pub fn try_copy(&self, alloc: Global) -> Result<StepList, AllocError>
        ensures { IfOk result (λ copy. copy ≡ self.now) }
    {
        let mut definitions = Vec::new(alloc);
        for node in &self.definitions {
            definitions.push(node.try_copy(alloc)?)?;
        }
        Ok(StepList {
            bases: self.bases,
            definitions,
        })
    }
}

impl PartialEq for StepList {
    ghost use Rattle.overlay_terms.specs.SameInput.{same_steps};
    ghost use Rattle.layer_expr.specs.SameSteps.{same_steps-laws};

    ghost eq = { same_steps };

    ghost laws = { same_steps-laws };

    fn eq(&self, other: &StepList) -> bool {
        self.bases == other.bases && self.definitions == other.definitions
    }
}

impl Eq for StepList {
    ghost use Rattle.layer_expr.specs.SameSteps.{same_steps-equiv};

    ghost laws = { same_steps-equiv };
}

/// How many of the layers are base layers.
fn base_count(layers: &[(&Name, Option<&Expr>)]) -> usize
    ensures count { result ≡ length (filter (λ layer. is_none layer.1) layers.now) }
    ensures few { result ≤ length layers.now }
{
    layers.iter().filter(|layer| layer.1.is_none()).count()
}

/// The expressions among the layers, in order, with numbers for names.
fn definitions_among(
    alloc: Global,
    layers: &[(&Name, Option<&Expr>)],
) -> Result<Vec<StepNode>, AllocError>
    requires { length layers.now ≤ layers_max }
    ensures { IfOk result (λ definitions. map step_tree definitions.items
        ≡ (numbered_steps (reached layers.now)).definitions) }
{
    let mut definitions = Vec::new(alloc);
    for layer in layers {
        if let Some(expr) = layer.1 {
            definitions.push(numbered(alloc, expr.root(), layers)?)?;
        }
    }
    Ok(definitions)
}

/// An expression with each name replaced by its number.
pub(crate) fn numbered(
    alloc: Global,
    node: &Node,
    layers: &[(&Name, Option<&Expr>)],
) -> Result<StepNode, AllocError>
    requires { length layers.now ≤ layers_max }
    ensures { IfOk result
        (λ definition. step_tree definition ≡ relabel (source_among (reached layers.now)) (tree node.now)) }
{
    match node {
        Node::Leaf(name) => Ok(StepNode::Leaf(source_named(name, layers))),
        Node::Combine(operation, left, right) => {
            let left = numbered(alloc, left, layers)?;
            let right = numbered(alloc, right, layers)?;
            Ok(StepNode::Combine(*operation, Box::new(alloc, left)?, Box::new(alloc, right)?))
        }
    }
}

/// Whether definitions are the expressions among the layers, in order, with numbers for names.
fn are_numbered(definitions: &[StepNode], layers: &[(&Name, Option<&Expr>)]) -> bool
    requires { length layers.now ≤ layers_max }
    ensures { result ≡ pointwise same_definition (map step_tree definitions.now)
        (numbered_steps (reached layers.now)).definitions }
{
    let mut next = 0;
    for layer in layers {
        if let Some(expr) = layer.1 {
            if next >= definitions.len() || !is_numbered(&definitions[next], expr.root(), layers) {
                return false;
            }
            next += 1;
        }
    }
    next >= definitions.len()
}

/// Whether a definition is an expression with each name replaced by its number.
pub(crate) fn is_numbered(
    definition: &StepNode,
    node: &Node,
    layers: &[(&Name, Option<&Expr>)],
) -> bool
    requires { length layers.now ≤ layers_max }
    ensures { result ≡ same_definition (step_tree definition.now)
        (relabel (source_among (reached layers.now)) (tree node.now)) }
{
    match (definition, node) {
        (StepNode::Leaf(source), Node::Leaf(name)) => *source == source_named(name, layers),
        (StepNode::Combine(o, l, r), Node::Combine(p, m, s)) => {
            *o == *p && is_numbered(l, m, layers) && is_numbered(r, s, layers)
        }
        _ => false,
    }
}

/// What a name is of among layers in reach: which base layer, or which definition.
fn source_named(name: &Name, layers: &[(&Name, Option<&Expr>)]) -> Source
    requires { length layers.now ≤ layers_max }
    ensures { source result ≡ source_among (reached layers.now) name.now }
{
    match base_number(name, layers) {
        Some(number) => Source::Base(BaseBit {
            number: number as u8,
        }),
        None => Source::Definition(definition_number(name, layers) as u8),
    }
}

/// The index of a name among the base layers.
fn base_number(name: &Name, layers: &[(&Name, Option<&Expr>)]) -> Option<usize>
    ensures place { result
        ≡ position (λ layer. bytes_eq layer.0.now name.now) (filter (λ layer. is_none layer.1) layers.now) }
    ensures few { IfSome result (λ number. number < length layers.now) }
{
    layers
        .iter()
        .filter(|layer| layer.1.is_none())
        .position(|layer| layer.0.bytes() == name.bytes())
}

/// How many definitions come before the one with a name.
fn definition_number(name: &Name, layers: &[(&Name, Option<&Expr>)]) -> usize
    ensures place { result
        ≡ length (take_while (λ layer. not (bytes_eq layer.0.now name.now))
        (filter (λ layer. is_some layer.1) layers.now)) }
    ensures few { result ≤ length layers.now }
{
    layers
        .iter()
        .filter(|layer| layer.1.is_some())
        .take_while(|layer| layer.0.bytes() != name.bytes())
        .count()
}

/// Layers in order give their base layers' number and their definitions, each name by its number.
pub fn numbered_by_content()
    ensures { NumberedByContent }
{}

/// The layers that a layer reaches give its steps in reach.
pub fn numbered_are_in_reach()
    ensures { NumberedAreInReach }
{}

/// The value of steps is Boolean evaluation.
pub fn steps_evaluate()
    ensures { StepsEvaluate }
{}

/// Two step lists are `==` exactly where their values are equal.
pub fn same_are_equal()
    ensures { SameAreEqual }
{}
