//! Expressions over named layers.
ghost use Rattle.std.specs.Prelude.{◌≡◌, ◌↔◌, IfOk, IsTrue};
ghost use Rattle.overlay_terms.specs.Trees.{combine};
ghost use Rattle.layer_expr.specs.Expr.{operation, tree};

use crate::name::Name;
use std::alloc::{AllocError, Global};
use std::marker::Model;

/// A set operation.
#[derive(Clone, Copy, Debug, PartialEq, Eq)]
pub enum Operation {
    Intersection,
    Union,
    Difference,
    SymDifference,
}

/// A name, or an operation on two expressions.
#[derive(Debug, Drop)]
pub enum Node {
    Leaf(Name),
    Combine(Operation, Box<Node>, Box<Node>),
}

/// An operation on two expressions.
pub(crate) fn combine(
    alloc: Global,
    o: Operation,
    left: Node,
    right: Node,
) -> Result<Node, AllocError>
    ensures { IfOk result (λ node. tree node ≡ combine (operation o) (tree left) (tree right)) }
{
    let left = Box::new(alloc, left).map_err(AllocError::from)?;
    let right = Box::new(alloc, right).map_err(AllocError::from)?;
    Ok(Node::Combine(o, left, right))
}

/// An expression over named layers.
#[derive(Debug, Drop)]
pub struct Expr {
    root: Node,
}

impl Model for Expr {
    ghost use Rattle.std.specs.Prelude.{List, ℕ, []};
    ghost use Rattle.std.specs.Coded.{coded_list, coded_ℕ};
    ghost use Rattle.overlay_terms.specs.Trees.{Tree};
    ghost use Rattle.overlay_terms.specs.TreeCode.{tree_code};

    ghost Value = { Tree (List ℕ) };

    ghost coded = { tree_code [] (coded_list coded_ℕ) };

    ghost use Rattle.layer_expr.specs.Expr.{tree};
    ghost use Rattle.layer_expr.specs.Spelling.{IsExpression};

    ghost view = { λ e. tree e.root };

    ghost invariant = { λ e. IsExpression (tree e.root) };
}

impl Expr {
    ghost use Rattle.layer_expr.specs.Spelling.{IsExpression};

    /// The expression with this node at its top.
    pub(crate) fn new(root: Node) -> Expr
        requires { IsExpression (tree root) }
        ensures { result ≡ tree root }
    {
        Expr { root }
    }

    /// The node at the top of the expression.
    pub fn root(&self) -> &Node
        ensures value { tree result.now ≡ self.now }
        ensures valid { IsExpression self.now }
    {
        &self.root
    }

    /// Whether both are the same expression: the same operations on the same names.
    pub fn is_same(&self, other: &Expr) -> bool
        ensures { IsTrue result ↔ (self.now ≡ other.now) }
    {
        same_node(self.root(), other.root())
    }
}

/// Whether two nodes are the same expression.
fn same_node(left: &Node, right: &Node) -> bool
    ensures { IsTrue result ↔ (tree left.now ≡ tree right.now) }
{
    match left {
        Node::Leaf(name) => match right {
            Node::Leaf(other) => name.bytes() == other.bytes(),
            Node::Combine(_, _, _) => false,
        },
        Node::Combine(o, one, two) => match right {
            Node::Leaf(_) => false,
            Node::Combine(p, first, second) => {
                let same = o == p;
                same && same_node(one, first) && same_node(two, second)
            }
        },
    }
}
