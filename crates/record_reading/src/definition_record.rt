//! The records of derived layers: the text of the expression.
ghost use Rattle.record_reading.specs.Answers.{Gives, Reads};
ghost use Rattle.store_terms.specs.DefinitionRecord.{definition_of_record};
ghost use Rattle.store_terms.specs.Image.{or_fault};
ghost use Rattle.store_terms.specs.declared.damage.Damage.TheVariants.{LayerForm};

use crate::fault::{ReadFault, RecordFault};
use layer_expr::Expr;
use layer_expr::reading::read_expr;
use layer_expr::writing::write_expr;
use std::alloc::Global;
use store_terms::damage::Damage;

/// The expression whose text a definition record is. Another spelling of it has not the form.
pub fn read_definition(alloc: Global, bytes: &[u8]) -> Result<Expr, RecordFault>
    ensures { Reads (λ expression. expression) result (or_fault LayerForm (definition_of_record bytes.now)) }
{
    match definition_in(alloc, bytes) {
        Ok(expression) => Ok(expression),
        Err(fault) => Err(fault.as_record_fault(Damage::LayerForm)),
    }
}

fn definition_in(alloc: Global, bytes: &[u8]) -> Result<Expr, ReadFault>
    ensures { Gives (λ expression. expression) result (definition_of_record bytes.now) }
{
    let expression = read_expr(alloc, bytes)?;
    let text = write_expr(alloc, &expression)?;
    if text.as_slice() != bytes {
        return Err(ReadFault::Form);
    }
    Ok(expression)
}
