//! Commands, as the names and texts of a line spell them.
ghost use Rattle.std.specs.Prelude.{◌≡◌, ◌⊎◌, IfOk, IfErr, IsTrue};
ghost use Rattle.layer_expr.specs.Name.{is_name};
ghost use Rattle.layer_book.specs.Command.{command};
ghost use Rattle.script_form.specs.BatchLines.{IsCommandOf, IsNoCommand};
ghost use Rattle.script_form.specs.Reading.{IsMemory, IsNoName};
ghost use Rattle.script_form.specs.Requests.{define_text, put_text, remove_name};

use crate::fault::CommandFault;
use layer_book::command::Command;
use layer_expr::name::Name;
use layer_expr::reading::read_expr;
use std::alloc::{AllocError, Global};
use std::sync::Arc;
use wkt_form::reading::read_wkt;

/// The name with these bytes. It takes no memory.
pub fn read_name(alloc: Global, bytes: &[u8]) -> Result<Name, CommandFault>
    ensures ok { IfOk result (λ name. (name ≡ bytes.now) × IsTrue (is_name bytes.now)) }
    ensures refused { IfErr result (λ fault. IsNoName bytes.now fault) }
{
    Ok(Name::new(alloc, bytes)?)
}

/// The PUT of a name and the text of rings. The name is looked at before the text.
pub fn read_put(alloc: Global, name: &[u8], text: &[u8]) -> Result<Command, CommandFault>
    ensures ok { IfOk result (λ change. IsCommandOf (put_text name.now text.now) (command change)) }
    ensures refused { IfErr result (λ fault. IsMemory name.now fault ⊎ IsNoCommand (put_text name.now text.now) fault) }
{
    let name = read_name(alloc, name)?;
    let layer = read_wkt(alloc, text)?;
    let rings = Arc::new(alloc, layer).map_err(AllocError::from)?;
    Ok(Command::Put(name, rings))
}

/// The DEFINE of a name and the text of an expression. The name is looked at before the text.
pub fn read_define(alloc: Global, name: &[u8], text: &[u8]) -> Result<Command, CommandFault>
    ensures ok { IfOk result (λ change. IsCommandOf (define_text name.now text.now) (command change)) }
    ensures refused { IfErr result (λ fault. IsMemory name.now fault ⊎ IsNoCommand (define_text name.now text.now) fault) }
{
    let defined = read_name(alloc, name)?;
    let expression = read_expr(alloc, text)?;
    let definition = Arc::new(alloc, expression).map_err(AllocError::from)?;
    Ok(Command::Define(defined, definition))
}

/// The DROP of a name. It takes no memory.
pub fn read_remove(alloc: Global, name: &[u8]) -> Result<Command, CommandFault>
    ensures ok { IfOk result (λ change. IsCommandOf (remove_name name.now) (command change)) }
    ensures refused { IfErr result (λ fault. IsNoName name.now fault) }
{
    Ok(Command::Remove(read_name(alloc, name)?))
}
