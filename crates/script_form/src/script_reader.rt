//! Chunks of a script.
ghost use Rattle.std.specs.Prelude.{◌≡◌, ◌+◌, ◌<◌, ◌≤◌, ◌^◌, length, take, IfErr, IfOk, OnErr};
ghost use Rattle.std.specs.Io.KnownBytes.{Keeps, Consumes, IsAtEnd};

use crate::fault::CommandFault;
use std::io::Read;

/// The most bytes of a script.
pub const SCRIPT_MAX: usize = 16_777_216;

/// Reads into the front of the chunk, at most up to the byte after the longest script, of so many bytes. A read of
/// no byte is the end.
pub fn read_chunk<R: Read>(
    reader: &mut R,
    chunk: &mut [u8],
    taken: usize,
    most: usize,
) -> Result<usize, CommandFault>
    requires room { 0 < length chunk.old }
    requires in_script { taken ≤ most }
    requires countable { most < 2 ^ 63 }
    ensures within { IfOk result (λ count. count ≤ length chunk.new) }
    ensures in_limit { IfOk result (λ count. taken + count ≤ most + 1) }
    ensures bytes { IfOk result
        (λ count. Consumes (R.remaining reader.old) (R.remaining reader.new) (take count chunk.new)) }
    ensures at_end { IfOk result (λ count. count ≡ 0 → IsAtEnd (R.remaining reader.new)) }
    ensures fault { IfErr result (λ fault. fault ≡ CommandFault.Read) }
    ensures err { OnErr result (Keeps (R.remaining reader.old) (R.remaining reader.new)) }
{
    let room = chunk.len().min(most + 1 - taken);
    match reader.read(&mut chunk[..room]) {
        Ok(count) => Ok(count),
        Err(_) => Err(CommandFault::Read),
    }
}
