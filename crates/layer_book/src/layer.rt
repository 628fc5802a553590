//! One layer.
ghost use Rattle.std.specs.Prelude.{◌≡◌, IsTrue};
ghost use Rattle.std.specs.List.{list_any};
ghost use Rattle.overlay_terms.specs.Commands.{is_derived, uses};
ghost use Rattle.overlay_terms.specs.Trees.{leaves};
ghost use Rattle.std.specs.Str.{bytes_eq};
ghost use Rattle.layer_book.specs.Layer.{content, HasRings};
ghost use Rattle.layer_expr.specs.Expr.{tree};
ghost use Rattle.layer_expr.specs.Name.{is_name};

use layer_expr::Expr;
use layer_expr::expr::Node;
use layer_expr::name::Name;
use plane_base::BaseLayer;
use std::alloc::AllocError;
use std::sync::Arc;

/// What a name means.
#[derive(Debug, Drop)]
pub enum Layer {
    Base(Arc<BaseLayer>),
    Derived(Arc<Expr>),
}

impl Clone for Layer {
    ghost is_clone = { λ layer copy. content copy ≡ content layer };

    fn clone(&self) -> Result<Layer, AllocError> {
        match self {
            Layer::Base(rings) => Ok(Layer::Base(rings.clone()?)),
            Layer::Derived(expression) => Ok(Layer::Derived(expression.clone()?)),
        }
    }
}

impl Layer {
    /// Says of a layer under a name what is true of each: the name is one, and the rings that the
    /// layer has are closed and in range. The call does nothing.
    pub(crate) fn known(&self, name: &Name)
        ensures name { IsTrue (is_name name.now) }
        ensures rings { HasRings (content self.now) }
    {
        // The name and the rings are so by their types: the clauses rest on that.
        let _ = name.bytes();
        match self {
            Layer::Base(rings) => {
                let _ = rings.rings();
            }
            Layer::Derived(_) => {}
        }
    }

    pub fn is_derived(&self) -> bool
        ensures { result ≡ is_derived (content self.now) }
    {
        match self {
            Layer::Base(_) => false,
            Layer::Derived(_) => true,
        }
    }

    /// Whether the layer's definition names the name.
    pub fn uses(&self, name: &Name) -> bool
        ensures { result ≡ uses name.now (content self.now) }
    {
        match self {
            Layer::Base(_) => false,
            Layer::Derived(expression) => node_uses(expression.root(), name),
        }
    }
}

/// Whether an expression names the name, by its root.
pub(crate) fn node_uses(node: &Node, name: &Name) -> bool
    ensures { result ≡ list_any (λ used. bytes_eq used name.now) (leaves (tree node.now)) }
{
    match node {
        Node::Leaf(used) => used == name,
        Node::Combine(_, left, right) => { node_uses(left, name) || node_uses(right, name) }
    }
}
