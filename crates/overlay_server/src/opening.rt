//! A book is opened, and what it answers to that is kept.
ghost use Rattle.std.specs.Prelude.{◌≡◌, ◌⊎◌, ◌<◌, ◌≤◌, ◌∷◌, [], IfOk, IfErr};
ghost use Rattle.book_history.specs.Fault.{no_memory};
ghost use Rattle.book_history.specs.Logs.{entry, no_event};
ghost use Rattle.book_history.specs.Rules.{head_of};
ghost use Rattle.book_lock.specs.Steps.{beginners};
ghost use Rattle.version_book.specs.Store.{has_store};
ghost use Rattle.overlay_server.specs.Answering.{answer_in, fault_of, refusal_code};

use std::alloc::Global;
use std::sync::Wait;
use version_book::closer::Closer;
use version_book::fault::BookFault;
use version_book::reporter::Reporter;
use version_book::seen_log::{BookName, LogWord, SeenLog};
use version_book::session::Session;
use version_book::shared::Shared;
use versions::Version;

/// What a book answered as it was to be opened: that it was, or why it gave no places. `open_book` alone makes one.
#[derive(Debug, Drop)]
pub struct BookAnswer {
    fault: Option<BookFault>,
}

impl BookAnswer {
    /// The number under which a server reports why it did not run: that of the book's refusal, or 40 where the book was
    /// opened, and so memory or a thread was refused.
    pub(crate) fn code(&self) -> u8
        ensures { result ≡ refusal_code (answer_in self.now) }
    {
        match self.fault {
            Some(fault) => fault.code(),
            None => 40,
        }
    }
}

/// A book, its reporter, its sessions and the right to close it.
pub(crate) type Begun<J, S> = (Shared<J, S>, Reporter, Vec<Session>, Closer<J>);

/// Opens a book, and keeps what it answers.
pub(crate) fn open_book<J: BookName, S: Wait + Drop>(
    rt: S,
    alloc: Global,
    head: LogWord<J>,
    seen_log: SeenLog,
    version: Version,
    store: bool,
    sessions: usize,
) -> (Result<Begun<J, S>, BookFault>, BookAnswer)
    requires head { head ≡ head_of J.book }
    requires seen_log { (seen_log.book ≡ J.book) × (seen_log.log ≡ entry no_event version ∷ []) }
    requires sessions { (0 < sessions) × (sessions ≤ 4) }
    requires seats { sessions ≤ J.seats }
    ensures reporter { IfOk result.0 (λ r. r.1 ≡ record { book = seen_log.book; log = seen_log.log; given = 0 }) }
    ensures sessions { IfOk result.0 (λ r. r.2.items ≡ beginners seen_log sessions) }
    ensures store { IfOk result.0 (λ r. has_store r.0 ≡ store) }
    ensures err { IfErr result.0 (λ fault. (fault ≡ no_memory) ⊎ (fault ≡ BookFault.Gone)) }
    ensures answer { answer_in result.1 ≡ fault_of result.0 }
{
    let begun = Shared::start(rt, alloc, head, seen_log, version, store, sessions);
    let fault = match &begun {
        Ok(_) => None,
        Err(fault) => Some(*fault),
    };
    (begun, BookAnswer { fault })
}
