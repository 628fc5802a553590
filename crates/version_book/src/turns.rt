//! Turns at the book under its lock. Each wakes those whose wait it may have ended, at its end.
ghost use Rattle.std.specs.Sync.Mutex.{mutex_guard_value};
ghost use Rattle.book_history.specs.Logs.{newest_in};
ghost use Rattle.version_book.specs.Waits.{Waits};

use crate::locked_book::LockedBook;
use crate::locked_book::waits::{Awaited, waits};
use book_history::seen_log::BookName;
use layer_expr::name::Name;
use std::sync::{Condvar, Mutex, MutexGuard, Wait};

/// The book under its lock, and those who wait for what lies there. It is reached by turns alone.
pub(crate) struct Turns<J: BookName, R: Wait + Drop> {
    book: Mutex<LockedBook<J, R>>,
    waiting: Waiting,
}

/// Those who wait: workers for a tile, sessions until tiles are built or a number is durable, the reporter for news.
#[derive(Drop)]
struct Waiting {
    workers: Condvar,
    sessions: Condvar,
    reporter: Condvar,
}

/// What a turn did.
#[derive(Drop)]
pub(crate) enum TurnKind {
    /// It did not say.
    Unsaid,
    /// A command or a batch was accepted or refused.
    Commanded,
    /// A tile was handed out, or none could be.
    HandedOut,
    /// One tile or several of a layer were finished, and all kept or not. No layer is named where memory for its name
    /// was refused.
    Finished { layer: Option<Name>, kept: bool },
    /// A tile was given back, and is marked.
    GivenBack,
    /// Tiles were let go, and can be handed out again.
    LetGo,
    /// A session learnt how a wait for a layer's tiles ends, by a fault or by their number.
    Answered { fault: bool },
    /// A session or the reporter looked, and changed nothing.
    Looked,
    /// A number was reported durable.
    Reported,
    /// The store reported a fault.
    StoreFailed,
    /// The book began to close.
    Closed,
}

/// Whose waits a turn may have ended.
#[derive(Clone, Copy)]
enum Ended {
    /// Each wait, for all that is known.
    All,
    /// Those of workers.
    Workers,
    /// Those of sessions.
    Sessions,
    /// The reporter's alone.
    Reporter,
    /// None.
    Nothing,
}

impl TurnKind {
    /// The rule of waking: whose waits a turn of this kind may have ended, where it leaves the book so.
    fn ended<J: BookName, R: Wait + Drop>(&self, left: &LockedBook<J, R>) -> Ended {
        match self {
            TurnKind::Unsaid | TurnKind::Commanded | TurnKind::Closed => Ended::All,
            // A tile that was not kept may be handed out again. One that was kept is news, and no more while others of
            // its layer are pending.
            TurnKind::Finished {
                layer: Some(name),
                kept: true,
            } => {
                if waits(left, &Awaited::Built(name)) {
                    Ended::Reporter
                } else {
                    Ended::All
                }
            }
            TurnKind::Finished { .. } => Ended::All,
            // The layer's marks may have gone with a fault.
            TurnKind::Answered { fault: true } => Ended::All,
            TurnKind::LetGo => Ended::Workers,
            TurnKind::GivenBack | TurnKind::Reported | TurnKind::StoreFailed => Ended::Sessions,
            TurnKind::HandedOut | TurnKind::Looked | TurnKind::Answered { fault: false } => {
                Ended::Nothing
            }
        }
    }
}

/// A turn at the book. Once it is over, those whose wait it may have ended look again whether it is.
pub(crate) struct Turn<'a, J: BookName, R: Wait + Drop> {
    pub book: MutexGuard<'a, LockedBook<J, R>>,
    pub kind: TurnKind,
    waiting: &'a Waiting,
}

impl<J: BookName, R: Wait + Drop> Turns<J, R> {
    /// Nobody waits for it yet.
    pub fn new(book: LockedBook<J, R>) -> Turns<J, R> {
        Turns {
            book: Mutex::new(book),
            waiting: Waiting {
                workers: Condvar::new(),
                sessions: Condvar::new(),
                reporter: Condvar::new(),
            },
        }
    }

    /// The next turn.
    pub fn next<W: Wait>(&self, rt: &W, kind: TurnKind) -> Turn<'_, J, R> {
        Turn {
            book: self.book.lock(rt),
            kind,
            waiting: &self.waiting,
        }
    }

    /// The turn in which a wait is over: what is awaited came, or the wait is refused. Until then the call sleeps.
    pub fn after<W: Wait>(&self, rt: &W, awaited: &Awaited<'_>, kind: TurnKind) -> Turn<'_, J, R>
        ensures { ¬ (Waits (newest_in (mutex_guard_value result.book).log) (mutex_guard_value result.book).state awaited.now) }
    {
        let book = self
            .waiting
            .place(awaited)
            .wait_while(rt, self.book.lock(rt), |book| waits(book, awaited));
        Turn {
            book,
            kind,
            waiting: &self.waiting,
        }
    }

    /// The book, once nobody shares it.
    pub fn into_inner(self) -> LockedBook<J, R> {
        let Turns {
            book,
            waiting: _waiting,
        } = self;
        book.into_inner()
    }
}

impl Waiting {
    /// The condition on which a call that awaits this sleeps.
    fn place(&self, awaited: &Awaited<'_>) -> &Condvar {
        match awaited {
            Awaited::Tile => &self.workers,
            Awaited::Built(_) => &self.sessions,
            Awaited::Durable(_) => &self.sessions,
            Awaited::News(_) => &self.reporter,
        }
    }

    /// Wakes those whose wait may have ended.
    fn wake(&self, ended: Ended) {
        match ended {
            Ended::All => {
                self.workers.notify_all();
                self.sessions.notify_all();
                self.reporter.notify_all();
            }
            Ended::Workers => self.workers.notify_all(),
            Ended::Sessions => self.sessions.notify_all(),
            Ended::Reporter => self.reporter.notify_all(),
            Ended::Nothing => {}
        }
    }
}

/// It wakes those whose wait it may have ended.
impl<J: BookName, R: Wait + Drop> Drop for Turn<'_, J, R> {
    fn drop(self) {
        let Self {
            book,
            kind,
            waiting,
        } = self;
        let ended = kind.ended(&book);
        drop(book);
        waiting.wake(ended);
    }
}

/// It waits for the readers.
impl<J: BookName, R: Wait + Drop> Drop for Turns<J, R> {
    fn drop(self) {
        let Self { book, waiting } = self;
        drop(book);
        drop(waiting);
    }
}
