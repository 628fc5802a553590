//! Whether each of some layers has a name of its own, and an expression over earlier ones alone.
ghost use Rattle.std.specs.Prelude.{◌≡◌, [], ◌&&◌, not, map, false, is_some};
ghost use Rattle.std.specs.List.{list_all};
ghost use Rattle.std.specs.Option.{option_copied};
ghost use Rattle.overlay_terms.specs.Orderly.{is_among};
ghost use Rattle.overlay_terms.specs.Trees.{leaves, last_or};
ghost use Rattle.layer_expr.specs.Expr.{tree};
ghost use Rattle.layer_expr.specs.StepList.{reached, is_ordered_after};
ghost use Rattle.expression_steps.specs.Ordered.{names_of, goes_after};

use layer_expr::{Expr, Name, Node};

/// Whether one of some layers has a name.
fn is_named(layers: &[(&Name, Option<&Expr>)], name: &Name) -> bool
    ensures { result ≡ is_among (names_of (reached layers.now)) name.now }
{
    for layer in layers {
        if layer.0 == name {
            return true;
        }
    }
    false
}

/// Whether an expression names some layers alone, by its root.
fn names_only(node: &Node, layers: &[(&Name, Option<&Expr>)]) -> bool
    ensures { result ≡ list_all (is_among (names_of (reached layers.now))) (leaves (tree node.now)) }
{
    match node {
        Node::Leaf(name) => is_named(layers, name),
        Node::Combine(_, left, right) => { names_only(left, layers) && names_only(right, layers) }
    }
}

/// Whether a layer may come after some layers.
fn goes_after(layers: &[(&Name, Option<&Expr>)], name: &Name, expression: Option<&Expr>) -> bool
    ensures { result ≡ goes_after (names_of (reached layers.now)) (name.now, option_copied expression.entry) }
{
    if is_named(layers, name) {
        return false;
    }
    match expression {
        Some(expression) => names_only(expression.root(), layers),
        None => true,
    }
}

/// Whether layers are in order.
pub(crate) fn is_ordered(layers: &[(&Name, Option<&Expr>)]) -> bool
    ensures { result ≡ is_ordered_after [] (reached layers.now) }
{
    for at in 0..layers.len() {
        let layer = layers[at];
        if !goes_after(&layers[..at], layer.0, layer.1) {
            return false;
        }
    }
    true
}

/// Whether the last of some layers is derived.
pub(crate) fn ends_derived(layers: &[(&Name, Option<&Expr>)]) -> bool
    ensures { result ≡ last_or false (map (λ layer. is_some layer.1) (reached layers.now)) }
{
    let mut last = false;
    for layer in layers {
        last = layer.1.is_some();
    }
    last
}
