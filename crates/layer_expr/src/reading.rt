//! Reading an expression.
ghost use Rattle.std.specs.Prelude.{◌≡◌, ◌⊎◌, IfOk, IfErr};
ghost use Rattle.layer_expr.specs.Grammar.{ReadsAs, IsRefusedBy};

use crate::expr::Expr;
use crate::fault::ExprFault;
use crate::lexeme::next_lexeme;
use crate::reader::Reader;
use std::alloc::Global;

/// The most tokens of an expression.
const TOKENS_MAX: usize = 64;

/// The expression that a text spells. Every other text is refused by its first fault from the
/// left.
pub fn read_expr(alloc: Global, bytes: &[u8]) -> Result<Expr, ExprFault>
    ensures ok { IfOk result (λ tree. ReadsAs bytes.now tree) }
    ensures refused { IfErr result (λ fault. (fault ≡ ExprFault.OutOfMemory) ⊎ IsRefusedBy bytes.now fault) }
{
    let mut reader = Reader::new(alloc);
    let mut count = 0;
    let mut at = 0;
    while let Some(lexeme) = next_lexeme(bytes, at) {
        if count == TOKENS_MAX {
            return Err(ExprFault::ExprTooLong);
        }
        reader = reader.after(alloc, bytes, lexeme)?;
        count += 1;
        at = lexeme.end;
    }
    let root = reader.finish(alloc, bytes.len())?;
    Ok(Expr::new(root))
}
