//! How a run ends.
ghost use Rattle.std.specs.Prelude.{◌≡◌, nat_le, true, is_some, IfOk, Ok};
ghost use Rattle.std.specs.Arc.{arc_value};
ghost use Rattle.std.specs.List.{list_all};
ghost use Rattle.session_threads.specs.Running.{was_begun};
ghost use Rattle.program_store.specs.Ending.{conclusion, ends_of, exit_status, is_end, is_kept, is_read_only, kept_by, was_written};

use crate::fault::ProgramFault;
use commit_plan::fault::StoreFault;
use program_words::keeping::{Keeping, Opening};
use script_form::SessionEnd;
use session_threads::port::Finished;
use store_flushing::closed::Closed;

/// How the sessions of a run ended.
#[derive(Clone, Copy, Debug, PartialEq, Eq)]
pub struct Ends {
    /// Each script was read to its end.
    pub at_end: bool,
    /// Each session had memory for its lines.
    pub run: bool,
    /// Each session's replies could be written.
    pub written: bool,
}

impl Ends {
    /// How these sessions ended.
    pub fn of<W>(sessions: &[Finished<W>]) -> Ends
        ensures { result ≡ ends_of sessions.now }
    {
        Ends {
            at_end: have_ended(sessions),
            run: were_run(sessions),
            written: were_written(sessions),
        }
    }
}

/// Whether each script was read to its end.
fn have_ended<W>(sessions: &[Finished<W>]) -> bool
    ensures { result ≡ list_all (λ session. is_end session.end) sessions.now }
{
    sessions.iter().all(|session| is_end(&session.end))
}

/// Whether each session had memory for its lines.
fn were_run<W>(sessions: &[Finished<W>]) -> bool
    ensures { result ≡ list_all (λ session. was_begun session.end) sessions.now }
{
    sessions.iter().all(|session| was_begun(&session.end))
}

/// Whether the replies of each session could be written.
fn were_written<W>(sessions: &[Finished<W>]) -> bool
    ensures { result ≡ list_all (λ session. was_written session.end) sessions.now }
{
    sessions.iter().all(|session| was_written(&session.end))
}

/// The end of a run: whether each script was read to its end and the newest version is in the store, where it is to be. A
/// fault is one that no session's replies report: the store's, or else that the replies could not be written or that a
/// session had no memory. What is left of the book is that of the store that the words name.
pub fn end_run<D>(
    keeping: &Keeping,
    closed: &Closed<D>,
    printed: bool,
    ends: Ends,
) -> Result<bool, ProgramFault>
    // A disk came back just where the words name a store.
    requires named { is_some closed.now.disk ≡ is_some keeping.now.store }
    ensures value { result ≡ conclusion (kept_by keeping.now closed.now) printed ends }
    // Status 0 means that nothing is missing.
    ensures whole { result ≡ Ok true → (is_kept keeping.now closed.now ≡ true) × (printed ≡ true) × (ends.at_end ≡ true) }
    // Where no fault is reported, each session has reported its end itself.
    ensures reported { IfOk result (λ complete. (printed ≡ true) × (ends.run ≡ true) × (ends.written ≡ true)) }
{
    let stored = has_stored(keeping, closed)?;
    if !printed {
        return Err(ProgramFault::Write);
    }
    if !ends.run {
        return Err(ProgramFault::OutOfMemory);
    }
    if !ends.written {
        return Err(ProgramFault::Write);
    }
    Ok(stored && ends.at_end)
}

/// Whether the newest version is where it is to be. The fault is why the store does not take it: of a store that failed, the
/// device's fault that it failed by.
fn has_stored<D>(keeping: &Keeping, closed: &Closed<D>) -> Result<bool, ProgramFault>
    ensures value { result ≡ kept_by keeping.now closed.now }
    ensures kept { result ≡ Ok true → is_kept keeping.now closed.now ≡ true }
{
    if is_read_only(keeping.opening) || keeping.store.is_none() || is_stored(closed) {
        return Ok(true);
    }
    match closed.fault {
        Some(StoreFault::Failed) => Err(ProgramFault::Store(StoreFault::Device)),
        Some(fault) => Err(ProgramFault::Store(fault)),
        None => Ok(false),
    }
}

/// Whether nothing is kept, as the store is only read.
fn is_read_only(opening: Opening) -> bool
    ensures { result ≡ is_read_only opening }
{
    match opening {
        Opening::ReadOnly => true,
        Opening::Existing | Opening::New => false,
    }
}

/// The exit status of a run.
pub fn exit_status(ending: Result<bool, ProgramFault>) -> u8
    ensures value { result ≡ exit_status ending }
    ensures whole { result ≡ 0 → ending ≡ Ok true }
{
    match ending {
        Ok(true) => 0,
        Ok(false) => 1,
        Err(fault) => fault.status(),
    }
}

/// Whether a script was read to its end.
fn is_end(end: &SessionEnd) -> bool
    ensures { result ≡ is_end end.now }
{
    match end {
        SessionEnd::End => true,
        SessionEnd::Failed(_) => false,
    }
}

/// Whether a session had memory for its lines.
fn was_begun(end: &SessionEnd) -> bool
    ensures { result ≡ was_begun end.now }
{
    match end {
        SessionEnd::End => true,
        SessionEnd::Failed(code) => *code != 40,
    }
}

/// Whether a session's replies could be written.
pub fn was_written(end: &SessionEnd) -> bool
    ensures { result ≡ was_written end.now }
{
    match end {
        SessionEnd::End => true,
        SessionEnd::Failed(code) => *code != 49,
    }
}

/// Whether the newest version is stored.
fn is_stored<D>(closed: &Closed<D>) -> bool
    ensures { result ≡ nat_le (arc_value closed.now.version).number closed.now.stored }
{
    closed.version.number() <= closed.stored
}
