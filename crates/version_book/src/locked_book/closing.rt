//! The end of a book, under the lock.
ghost use Rattle.std.specs.Prelude.{◌≡◌, ◌≤◌, All, IsTrue};
ghost use Rattle.std.specs.Arc.{arc_value};
ghost use Rattle.book_history.specs.Logs.{newest_in, IsLog};
ghost use Rattle.version_book.specs.BookState.{IsAfterClosing};
ghost use Rattle.book_lock.specs.Steps.{HasAllOf, IsLevel};
ghost use Rattle.book_lock.specs.Heard.{HasHeard};

use crate::closer::Closer;
use crate::locked_book::LockedBook;
use book_history::seen_log::BookName;
use book_lock::closed::ClosedBook;
use book_lock::locked_log::LockedLog;
use book_lock::reporter::Reporter;
use book_lock::session::Session;
use std::sync::Wait;

/// The book closes from now on. Who has the right to close it alone can call this.
pub(crate) fn begin_close<J: BookName, R: Wait + Drop>(
    locked: &mut LockedBook<J, R>,
    _closer: &mut Closer<J>,
)
    ensures log { locked.new.log ≡ locked.old.log }
    ensures state { IsAfterClosing locked.old.state locked.new.state }
{
    locked.state.begin_close();
}

/// Whether the log has all that the reporter and some sessions have seen, no durable number that the reporter did not
/// report, and of each session's commands just those that it made.
pub(crate) fn has_all_of<J: BookName, R: Wait + Drop>(
    locked: &LockedBook<J, R>,
    reporter: &Reporter,
    sessions: &[Session],
) -> bool
    requires reporter { reporter.now.book ≡ J.book }
    requires sessions { All (λ session. session.book ≡ J.book) sessions.now }
    ensures reporter { IsTrue result → HasHeard locked.now.log reporter.now }
    ensures sessions { IsTrue result → All (λ session. HasAllOf locked.now.log session) sessions.now }
    ensures level { HasHeard locked.now.log reporter.now
        → All (λ session. IsLevel locked.now.log session) sessions.now → IsTrue result }
{
    locked.log.has_heard(reporter) && has_all_of_each(&locked.log, sessions)
}

/// The newest version and the log. It waits for the readers.
pub(crate) fn into_closed<J: BookName, R: Wait + Drop>(locked: LockedBook<J, R>) -> ClosedBook
    ensures version { arc_value result.version ≡ newest_in result.seen_log.log }
    ensures log { (result.seen_log ≡ record { book = J.book; log = locked.log }) × IsLog result.seen_log.log }
    ensures durable { All (λ entry. entry.version.durable ≤ (newest_in result.seen_log.log).durable) result.seen_log.log }
{
    let LockedBook {
        log,
        state: _state,
        near: _,
        room: _room,
    } = locked;
    log.into_closed()
}

fn has_all_of_each<J: BookName, R: Wait + Drop>(log: &LockedLog<J, R>, sessions: &[Session]) -> bool
    requires { All (λ session. session.book ≡ J.book) sessions.now }
    ensures all { IsTrue result → All (λ session. HasAllOf log.now session) sessions.now }
    ensures level { All (λ session. IsLevel log.now session) sessions.now → IsTrue result }
{
    for session in sessions {
        if !log.is_level(session) {
            return false;
        }
    }
    true
}
