//! Writing an expression.
ghost use Rattle.std.specs.Prelude.{◌≡◌, ◌++◌, Bool, not, IfOk, OnOk, if◌then◌else◌, ◌&&◌};
ghost use Rattle.layer_expr.specs.Expr.{operation, tree};
ghost use Rattle.layer_expr.specs.Grammar.{is_atom, is_intersection, is_sum, level_of};
ghost use Rattle.layer_expr.specs.Spelling.{bracketed_if, canonical, expression_text, operation_text};
ghost use Rattle.layer_expr.specs.Spelling.{written_text, left_needs_brackets, right_needs_brackets};

use crate::expr::{Expr, Node, Operation};
use std::alloc::{AllocError, Global};

/// The one text of an expression: with the fewest brackets that keep its tree.
pub fn write_expr(alloc: Global, expression: &Expr) -> Result<Vec<u8>, AllocError>
    ensures { IfOk result (λ text. text.items ≡ expression_text expression.now) }
{
    let mut text = Vec::new(alloc);
    write_node(expression.root(), false, &mut text)?;
    Ok(text)
}

/// Writes an expression after a text, in brackets if it needs them there.
fn write_node(node: &Node, in_brackets: bool, text: &mut Vec<u8>) -> Result<(), AllocError>
    ensures { OnOk result (text.new.items
        ≡ text.old.items ++ written_text (bracketed_if in_brackets (canonical (tree node.now)))) }
{
    if in_brackets {
        text.extend_from_slice(b"(")?;
    }
    match node {
        Node::Leaf(name) => text.extend_from_slice(name.bytes())?,
        Node::Combine(o, left, right) => {
            write_node(left, left_in_brackets(*o, left), text)?;
            text.extend_from_slice(sign_text(*o))?;
            write_node(right, right_in_brackets(*o, right), text)?;
        }
    }
    if in_brackets {
        text.extend_from_slice(b")")?;
    }
    Ok(())
}

/// Whether a left operand needs brackets: a sum under `&`.
fn left_in_brackets(o: Operation, left: &Node) -> bool
    ensures { result ≡ left_needs_brackets (operation o) (level_of (canonical (tree left.now))) }
{
    is_times(o) && is_loose(left)
}

/// Whether a right operand needs brackets: a sum, and a product under `&`.
fn right_in_brackets(o: Operation, right: &Node) -> bool
    ensures { result ≡ right_needs_brackets (operation o) (level_of (canonical (tree right.now))) }
{
    if is_times(o) {
        !is_leaf(right)
    } else {
        is_loose(right)
    }
}

fn is_times(o: Operation) -> bool
    ensures { result ≡ is_intersection (operation o) }
{
    match o {
        Operation::Intersection => true,
        Operation::Union => false,
        Operation::Difference => false,
        Operation::SymDifference => false,
    }
}

fn is_leaf(node: &Node) -> bool
    ensures { result ≡ is_atom (level_of (canonical (tree node.now))) }
{
    match node {
        Node::Leaf(_) => true,
        Node::Combine(_, _, _) => false,
    }
}

/// Whether a node is a sum.
fn is_loose(node: &Node) -> bool
    ensures { result ≡ is_sum (level_of (canonical (tree node.now))) }
{
    match node {
        Node::Leaf(_) => false,
        Node::Combine(o, _, _) => !is_times(*o),
    }
}

fn sign_text(o: Operation) -> &'static [u8]
    ensures { result.now ≡ operation_text (operation o) }
{
    match o {
        Operation::Intersection => b" & ",
        Operation::Union => b" | ",
        Operation::Difference => b" - ",
        Operation::SymDifference => b" ^ ",
    }
}
