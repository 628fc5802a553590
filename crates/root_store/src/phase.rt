//! How far a commit is, and what a step of it answers.

/// The device call that a commit makes next. Each step makes one and goes on to the next.
#[derive(Clone, Copy, Debug)]
pub enum Phase {
    /// None: no commit is under way.
    Idle,
    /// Shuts the other slot's gate.
    Close,
    /// Syncs that.
    Settle,
    /// Puts the next of the plan's writes in place; syncs where none is left.
    Put,
    /// Opens the other slot's gate.
    Open,
    /// Syncs that.
    Finish,
    /// None any more: the device failed, and the disk has to be opened again.
    Failed,
}

/// What a step has done.
#[derive(Clone, Copy, Debug, PartialEq, Eq)]
pub enum Progress {
    /// No commit is under way, and no device call was made.
    Idle,
    Going,
    /// The number of the version that is stored now.
    Done(u64),
}
