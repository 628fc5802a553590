//! Batches that wait for lines.
ghost use Rattle.std.specs.Prelude.{◌≡◌, ◌<◌, ◌≤◌, length, IfOk};
ghost use Rattle.std.proofs.Props.{props};

use crate::fault::CommandFault;
use layer_book::command::Command;

/// Why the lines of a batch are not read as commands.
#[derive(Clone, Copy, Debug, PartialEq, Eq)]
pub enum LinesFault {
    /// The first line that is none, counted from 0, and why.
    Unread(u32, CommandFault),
    OutOfMemory,
}

/// A batch that waits for lines. Those that came are read at once, and none after the first that is no command.
#[derive(Debug, Drop)]
pub struct OpenBatch {
    pub(crate) size: u32,
    pub(crate) came: u32,
    pub(crate) read: Result<Vec<Command>, LinesFault>,
    pub(crate) ghost waits: { came < size },
    pub(crate) ghost few: { size ≤ 64 },
    pub(crate) ghost counted: { IfOk read (λ commands. length commands.items ≡ came) } by { Prim.hlevel props },
}
