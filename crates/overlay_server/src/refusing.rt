//! A server that could not run: why, the disk that comes back, and what is left of a book of which no session was begun.
ghost use Rattle.std.specs.Prelude.{◌≡◌, [], MatchBool};
ghost use Rattle.std.specs.List.{list_any};
ghost use Rattle.session_threads.specs.Running.{was_begun};
ghost use Rattle.store_flushing.specs.ReportNote.{notes_in};
ghost use Rattle.overlay_server.specs.Answering.{answer_in, refusal_code};
ghost use Rattle.overlay_server.specs.Moments.{HasOnlyNow};

use crate::opening::BookAnswer;
use crate::outcome::{PortsBack, PortsFault, ServerFault};
use disk_model::disk::Disk;
use session_threads::counting::any_begun;
use session_threads::port::Finished;
use std::alloc::Global;
use store_flushing::closed::Closed;
use store_flushing::keeper::report_log::ReportLog;
use version_book::seen_log::SeenLog;
use version_book::session::Session;

/// No memory, no thread, or no places, by what the book answered, before any session was begun: the disk comes back, and
/// the book's history is this one.
pub fn refused<D>(
    alloc: Global,
    answer: BookAnswer,
    disk: Option<D>,
    seen_log: SeenLog,
) -> ServerFault<D>
    ensures code { result.code ≡ refusal_code (answer_in answer) }
    ensures answer { result.answer ≡ answer }
    ensures disk { result.disk ≡ disk }
    ensures seen_log { result.seen_log ≡ seen_log }
    ensures notes { notes_in result.notes ≡ [] }
    ensures sessions { result.sessions.items ≡ [] }
{
    ServerFault {
        code: answer.code(),
        disk,
        answer,
        seen_log,
        notes: ReportLog::none(),
        sessions: Vec::new(alloc),
    }
}

/// A thread was refused: the disk comes back, what the book has come to, and what the sessions leave. The sessions come
/// back themselves where one of them was begun.
pub fn stopped<R, W, D>(
    alloc: Global,
    answer: BookAnswer,
    closed: Closed<D>,
    sessions: Vec<Session>,
    finished: Vec<Finished<W>>,
) -> PortsFault<R, W, D>
    ensures code { result.fault.code ≡ refusal_code (answer_in answer) }
    ensures answer { result.fault.answer ≡ answer }
    ensures closed { (result.fault.disk ≡ closed.disk) × ((result.fault.seen_log ≡ closed.seen_log) × (result.fault.notes ≡ closed.notes)) }
    ensures sessions { MatchBool (list_any (λ one. was_begun one.end) finished.items)
        (result.fault.sessions.items ≡ sessions.items) (result.fault.sessions.items ≡ []) }
    // Each writer comes back, with how its session ended.
    ensures back { result.back ≡ PortsBack.Stopped finished }
{
    let begun = any_begun(&finished);
    let code = answer.code();
    PortsFault {
        fault: ServerFault {
            code,
            disk: closed.disk,
            answer,
            seen_log: closed.seen_log,
            notes: closed.notes,
            sessions: if begun { sessions } else { Vec::new(alloc) },
        },
        back: PortsBack::Stopped(finished),
    }
}

/// Says that since now there is no other moment; it does nothing.
pub fn only_now<D: Disk>()
    ensures { HasOnlyNow D.Disk }
{}
