//! The records of derived layers are written: the text of the expression.
ghost use Rattle.std.specs.Prelude.{◌≡◌, Some, IfOk};
ghost use Rattle.layer_expr.specs.Spelling.{expression_text};
ghost use Rattle.store_terms.specs.DefinitionRecord.{definition_of_record};

use layer_expr::Expr;
use layer_expr::writing::write_expr;
use std::alloc::{AllocError, Global};

/// The record of a derived layer.
pub fn write_definition(alloc: Global, expression: &Expr) -> Result<Vec<u8>, AllocError>
    ensures spelled { IfOk result (λ v. v.items ≡ expression_text expression.now) }
    ensures reads_back { IfOk result (λ v. definition_of_record v.items ≡ Some expression.now) }
{
    // Its names are names by their type: the clauses rest on that.
    let _ = expression.root();
    write_expr(alloc, expression)
}
