//! What an engine is asked for, and what it answers.

use layer_book::batch::Batch;
use layer_book::command::Command;
use layer_expr::name::Name;

/// One step of an engine.
#[derive(Debug, Drop)]
pub enum Step {
    /// Makes a command.
    Submit(Command),
    /// Makes the commands of a batch as one version, or none of them.
    SubmitAll(Batch),
    /// Hands out the input of the tile of a layer and column.
    Take(Name, u8),
    /// Builds the tile of a job that is held, and keeps it where it is still awaited.
    Finish(u32),
    /// Makes one device call of a commit; the first one begins it.
    Device,
    /// Reports what is stored as durable.
    Report,
}

/// The answer to a step.
#[derive(Clone, Copy, Debug, PartialEq, Eq)]
pub enum Reply {
    /// The number of the version that a command or a batch made.
    Accepted(u64),
    /// The number of a fault; nothing has changed, but for a store whose device failed.
    Refused(u8),
    /// The place of a command of a batch, counted from 0, and the number of its fault; nothing has changed.
    RefusedAt(u32, u8),
    /// The number of a job.
    Taken(u32),
    /// No tile is to be built, or no job has the number.
    NoJob,
    Kept,
    /// The tile is not awaited any more.
    Stale,
    Going,
    /// The number of the version that is stored now.
    Done(u64),
    /// The number up to which versions are durable.
    Durable(u64),
}
