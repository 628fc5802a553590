//! What definitions are, over the bits of the base layers.
ghost use Rattle.std.specs.Prelude.{◌≡◌, ◌≤◌, ◌<◌, map, length, false};
ghost use Rattle.overlay_terms.specs.Layers.{layers_max};
ghost use Rattle.overlay_terms.specs.Trees.{truth, source_value, mask_bits, definition_values, last_or};
ghost use Rattle.layer_expr.specs.Steps.{step_tree, source};

use crate::expr::Operation;
use crate::steps::{MAX_LAYERS, Source, StepNode};

/// Whether bit k of a mask is set.
pub(crate) fn is_bit_set(mask: u32, k: u8) -> bool
    requires { k < layers_max }
    ensures { result ≡ mask_bits mask k }
{
    (mask >> k) & 1 == 1
}

/// What a leaf is, from the bits of the base layers and what the definitions so far are.
fn leaf_value(leaf: Source, mask: u32, known: &[bool]) -> bool
    ensures { result ≡ source_value (mask_bits mask) known.now (source leaf) }
{
    match leaf {
        Source::Base(bit) => is_bit_set(mask, bit.number),
        Source::Definition(k) => known.get(k as usize).copied().unwrap_or(false),
    }
}

/// What a definition is.
fn node_value(node: &StepNode, mask: u32, known: &[bool]) -> bool
    ensures { result ≡ truth (source_value (mask_bits mask) known.now) (step_tree node.now) }
{
    match node {
        StepNode::Leaf(source) => leaf_value(*source, mask, known),
        StepNode::Combine(operation, left, right) => {
            let l = node_value(left, mask, known);
            let r = node_value(right, mask, known);
            match operation {
                Operation::Intersection => l & r,
                Operation::Union => l | r,
                Operation::Difference => l & !r,
                Operation::SymDifference => l ^ r,
            }
        }
    }
}

/// What the last of some definitions is, or the given bit where there is none.
pub(crate) fn last_value(definitions: &[StepNode], mask: u32, default: bool) -> bool
    requires { length definitions.now ≤ layers_max }
    ensures { result ≡ last_or default (definition_values (mask_bits mask) (map step_tree definitions.now)) }
{
    let mut known = [false; MAX_LAYERS];
    let mut last = default;
    for (k, node) in definitions.iter().enumerate() {
        last = node_value(node, mask, &known[..k]);
        known[k] = last;
    }
    last
}
