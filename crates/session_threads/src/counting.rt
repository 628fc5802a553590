//! Whether all that a book accepted was made by its sessions, and whether any was begun.
ghost use Rattle.std.specs.Prelude.{◌≡◌, ◌+◌};
ghost use Rattle.std.specs.List.{list_any};
ghost use Rattle.session_threads.specs.Counting.{made_in};
ghost use Rattle.session_threads.specs.Running.{was_begun};

use crate::port::Finished;
use script_form::SessionEnd;
use std::sync::Wait;
use version_book::session::Session;
use versions::Version;

/// How many batches these sessions made. Were it more than a number holds, which cannot come, it would wait for ever.
pub fn made_by_all<Q: Wait>(rt: &Q, sessions: &[Session]) -> u64
    ensures { result ≡ made_in sessions.now }
{
    let mut made: u64 = 0;
    for session in sessions {
        let Some(more) = made.checked_add(session.made_count()) else {
            never(rt)
        };
        made = more;
    }
    made
}

/// Returns where the last version of a book is so many batches after the first. Were it not, which
/// cannot come, it would wait for ever.
pub fn await_number<Q: Wait>(rt: &Q, first: u64, made: u64, last: &Version)
    ensures { last.now.number ≡ first + made }
{
    if first.checked_add(made) != Some(last.number()) {
        never(rt)
    }
}

/// Whether any of these sessions was begun.
pub fn any_begun<W>(finished: &[Finished<W>]) -> bool
    ensures { result ≡ list_any (λ one. was_begun one.end) finished.now }
{
    finished.iter().any(was_begun)
}

/// Whether a session was begun. One that was not ended for want of memory or of a thread.
fn was_begun<W>(finished: &Finished<W>) -> bool
    ensures { result ≡ was_begun finished.now.end }
{
    match finished.end {
        SessionEnd::End => true,
        SessionEnd::Failed(code) => code != 40,
    }
}

// Waits for ever, for what does not come.
fn never<W: Wait>(rt: &W) -> ! {
    for _ in rt.forever() {}
    unreachable!()
}
