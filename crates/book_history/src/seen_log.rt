//! A beginning of the history that was seen.
ghost use Rattle.std.specs.Prelude.{◌≡◌, ◌⊎◌, ◌+◌, ◌<◌, ◌≤◌, ◌++◌, ◌∷◌, [], length, MatchBool};
ghost use mathlib.Core.List.{IsPrefix};
ghost use Rattle.overlay_terms.specs.Commands.{version_max};
ghost use Rattle.overlay_terms.specs.Histories.{Follows};
ghost use Rattle.book_history.specs.Logs.{IsLog, entry, no_event, newest_in};
ghost use Rattle.book_history.specs.Causes.{event_of, IsAskedFor, IsOwnReceipt};
ghost use Rattle.book_history.specs.Rules.{head_of};
ghost use Rattle.book_history.specs.Reporting.{MayBeReported};

use crate::entry::{Ask, Cause, Entry};
use logbook::{Gain, Offer, Opening, Plain, Play, Rule, Seen, Start, Word};
use std::fmt;
use std::marker::{Brand, Model, PhantomData};
use versions::Version;

/// The rule of the history.
pub struct LogRule;

impl Rule<Entry, u64> for LogRule {
    ghost use Rattle.std.specs.Prelude.{[]};
    ghost use base.Fml.{ftrue};
    ghost use Rattle.book_history.specs.Rules.{IsLogKept};

    ghost holds = { λ cells log. IsLogKept cells log };

    ghost first = { [] };

    ghost hinted = { λ n log. Unit {0} };

    ghost shows = { λ log. [] };

    ghost keeps = { λ names log. ftrue };

    ghost moves = { λ ask before after answer. Unit {0} };
}

/// Callers trade nothing.
pub struct NoGain;

impl Gain<Entry, u64> for NoGain {
    ghost use base.Fml.{ftrue};

    ghost after = { λ names about answer. ftrue };
}

/// A history that begins with a version.
pub struct OpensLog;

impl Opening<Version, Entry> for OpensLog {
    ghost use Rattle.std.specs.Prelude.{[], ◌∷◌};
    ghost use Rattle.book_history.specs.Logs.{entry, no_event};

    ghost log = { λ n v. entry no_event v ∷ [] };
}

/// A step that adds an entry.
pub struct Add;

impl Play<Entry, u64> for Add {
    ghost use Rattle.book_history.specs.Rules.{Adds};

    ghost then = { Adds };
}

/// What a step asks for: the entry.
impl<'a> Plain<Ask<'a>, Entry, u64> for Add {
    ghost use Rattle.std.specs.Prelude.{None};
    ghost use Rattle.book_history.specs.Logs.{entry};
    ghost use Rattle.book_history.specs.Causes.{event_of};

    ghost ask = { λ a. entry (event_of a.cause) a.version.now };

    ghost state = { λ a. None };
}

/// Which history it is. Each call of a program picks it.
pub trait BookName {
    ghost use Rattle.std.specs.Prelude.{ℕ, List};
    ghost use Rattle.logbook.specs.Pages.{Book};
    ghost use Rattle.overlay_terms.specs.Batches as batches;
    ghost use Rattle.overlay_terms.specs.Histories as terms;
    ghost use Rattle.book_history.specs.declared.fault.ReportedFault as reported;

    ghost book: { Book };

    /// The name of its store, of which alone what is reported durable has a receipt (`serve`: the engine's own).
    ghost store: { Book };

    /// What to prove of a log and a number before that is reported; who opens the
    /// book picks it (`serve`: `IsStoredOf`).
    ghost stored: { List terms.Entry → ℕ → Type 0 };

    /// What to prove of a log and a fault before it is reported that the store failed so (`serve`: `IsFailedOf`).
    ghost failed: { List terms.Entry → reported.ReportedFault → Type 0 };

    /// What to prove of a session's number and of commands before they are accepted of it: that it was asked for them
    /// (`serve`: `IsAskedAt`).
    ghost asked: { ℕ → batches.Batch → Type 0 };

    /// How many sessions it may be begun for: who begins it for more cannot prove that it has them.
    ghost seats: { ℕ };
}

impl BookName for Brand {
    ghost book = { record { number = 0; log_name = 0; cells_name = 0 } };

    ghost store = { record { number = 0; log_name = 0; cells_name = 0 } };

    // Where a call picks nothing, nothing is stored, and no store failed.
    ghost stored = { λ log number. ⊥ };

    ghost failed = { λ log fault. ⊥ };

    // Nor was anything asked for.
    ghost asked = { λ session batch. ⊥ };

    ghost seats = { 4 };
}

/// The word of a history: how many entries follow the first. The type names the book, so who adds an entry by it proves
/// what the name of that book asks. `open` alone makes one, and a history has one: no
/// other crate can add to it without.
pub struct LogWord<J> {
    word: Word<Entry, u64, LogRule>,
    of: PhantomData<J>,
}

impl<J> Model for LogWord<J> {
    ghost use Rattle.logbook.specs.Pages.{Named, named_coded};

    ghost Value = { Named };

    ghost coded = { named_coded };

    ghost view = { λ head. head.word };
}

impl<J> Drop for LogWord<J> {
    fn drop(self) {
        let Self { word, of: _ } = self;
        drop(word);
    }
}

/// Begins a history with a version. Which book it is, whoever takes its word says.
pub fn open<J>(version: &Version) -> (LogWord<J>, SeenLog)
    ensures { (result.0 ≡ head_of result.1.book) × (result.1.log ≡ entry no_event version.now ∷ []) }
{
    let (seen, mut pens) = Seen::open_row::<Version, OpensLog>(version, Start::alone(), 1);
    let mut pen = pens.take();
    let word = Word::tracked(0, &mut pen);
    let head = LogWord {
        word,
        of: PhantomData,
    };
    (head, SeenLog { at: 0, seen })
}

/// A beginning of a history that was seen.
#[derive(Drop)]
pub struct SeenLog {
    at: u64,
    seen: Seen<Entry, u64, LogRule>,
}

impl Model for SeenLog {
    ghost use Rattle.std.specs.Prelude.{◌≡◌, suc, length};
    ghost use Rattle.book_history.specs.Logs.{IsLog};
    ghost use Rattle.book_history.specs.BookLogs.{BookLog};
    ghost use Rattle.book_history.specs.KnownCodes.{book_log_code};

    ghost Value = { BookLog };

    ghost coded = { book_log_code };

    ghost view = { λ f. record { book = f.seen.book; log = f.seen.log } };

    ghost invariant = { λ f. (suc f.at ≡ length f.seen.log) × IsLog f.seen.log };
}

impl fmt::Debug for SeenLog {
    fn fmt<W: fmt::Write>(&self, f: &mut fmt::Formatter<W>) -> fmt::Result {
        f.debug_struct("SeenLog")
            .field("at", &self.at)
            .finish_non_exhaustive()
    }
}

impl SeenLog {
    /// How many entries follow the first.
    pub fn at(&self) -> u64
        ensures length { result + 1 ≡ length self.now.log }
        ensures chain { IsLog self.now.log }
    {
        self.at
    }

    /// A copy.
    pub fn again(&self) -> SeenLog
        ensures { result ≡ self.now }
    {
        SeenLog {
            at: self.at,
            seen: self.seen.again(),
        }
    }

    /// Of two beginnings of one history, the one that isn't longer begins the other.
    pub fn compare(&self, other: &SeenLog)
        requires { other.now.book ≡ self.now.book }
        ensures there { length self.now.log ≤ length other.now.log → IsPrefix self.now.log other.now.log }
        ensures back { length other.now.log ≤ length self.now.log → IsPrefix other.now.log self.now.log }
    {
        let mut both = self.seen.again();
        both.learn(&other.seen);
        // Both say their lengths: the clauses rest on that.
        let _ = &self.at;
        let _ = &other.at;
    }

    /// Adds an entry to all that was seen, and says whether it did. An entry by which another number is durable may be
    /// added where that was stored, by a receipt of the book's own store, and a call that never returns owes this too.
    pub fn add<J: BookName>(
        &mut self,
        head: &LogWord<J>,
        cause: Cause<'_>,
        version: &Version,
    ) -> bool
        requires head { head.now ≡ head_of self.old.book }
        requires room { length self.old.log < version_max }
        requires follows { Follows (newest_in self.old.log) (event_of cause) version.now }
        requires reported { (version.now.durable ≡ (newest_in self.old.log).durable)
            ⊎ MayBeReported J.stored self.old.log version.now.durable }
        requires asked { IsAskedFor J.asked cause }
        requires own { IsOwnReceipt J.store cause }
        ensures { MatchBool result
            (self.new ≡ record {
              book = self.old.book;
              log = self.old.log ++ entry (event_of cause.entry) version.now ∷ [];
            }) (self.new ≡ self.old) }
    {
        let mut seen = self.seen.again();
        let ask = Ask { cause, version };
        let mut offer: Offer<Entry, u64, LogRule, NoGain> = seen.plain::<NoGain, Ask<'_>, Add>(
            &ask,
        );
        let mut pen = seen.no_pen();
        let at = self.at;
        let found = head
            .word
            .compare_exchange::<Add, NoGain>(at, at + 1, &mut seen, &mut offer, &mut pen);
        if found != at {
            return false;
        }
        self.seen = seen;
        self.at = at + 1;
        true
    }
}
