//! Texts as bytes of a writer.
ghost use Rattle.std.specs.Prelude.{◌≡◌, IfErr};
ghost use Rattle.script_form.specs.Writing.{Writes};

use crate::fault::CommandFault;
use std::io::Write;

/// Writes the text to its end, by as many writes as the writer asks for. A write that fails or takes
/// no byte ends it.
pub fn write_text<W: Write>(writer: &mut W, text: &[u8]) -> Result<(), CommandFault>
    ensures writes { Writes result (W.contents writer.old) (W.contents writer.new) text.now }
    ensures err { IfErr result (λ fault. fault ≡ CommandFault.Write) }
{
    let mut rest = text;
    while !rest.is_empty() {
        match writer.write(rest) {
            Ok(0) | Err(_) => return Err(CommandFault::Write),
            Ok(count) => rest = &rest[count..],
        }
    }
    Ok(())
}
