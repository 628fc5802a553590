//! The one token that may report durable numbers.
ghost use Rattle.std.specs.Prelude.{◌≡◌, ◌<◌, ◌↔◌, length, IsTrue};
ghost use mathlib.Core.List.{IsPrefix};
ghost use Rattle.book_history.specs.Logs.{newest_in, IsLog};
ghost use Rattle.book_lock.specs.Heard.{HasHeard};

use book_history::seen_log::SeenLog;
use std::marker::Model;

/// The one token that may report durable numbers, which `LockedLog::open` makes: what it has seen, the durable number
/// there, and which news it gave last.
#[derive(Debug, Drop)]
pub struct Reporter {
    seen_log: SeenLog,
    durable: u64,
    given: u64,
}

impl Model for Reporter {
    ghost use Rattle.std.specs.Prelude.{◌≡◌};
    ghost use Rattle.book_history.specs.Logs.{newest_in};
    ghost use Rattle.book_lock.specs.Heard.{Heard, heard_code};

    ghost Value = { Heard };

    ghost coded = { heard_code };

    ghost view = { λ r. record { book = r.seen_log.book; log = r.seen_log.log; given = r.given } };

    ghost invariant = { λ r. (newest_in r.seen_log.log).durable ≡ r.durable };
}

impl Reporter {
    /// A reporter that has seen this, where so much is durable, and gave nothing.
    pub(crate) fn new(seen_log: SeenLog, durable: u64) -> Reporter
        requires { (newest_in seen_log.log).durable ≡ durable }
        ensures { result ≡ record { book = seen_log.book; log = seen_log.log; given = 0 } }
    {
        Reporter {
            seen_log,
            durable,
            given: 0,
        }
    }

    /// What it has seen.
    pub fn seen_log(&self) -> &SeenLog
        ensures { (result.now.log ≡ self.now.log) × (result.now.book ≡ self.now.book) }
    {
        &self.seen_log
    }

    /// The count of the news that it gave last.
    pub fn given(&self) -> u64
        ensures value { result ≡ self.now.given }
        ensures valid { IsLog self.now.log }
        ensures begun { 0 < length self.now.log }
    {
        // What was seen is a log with a first entry: the clauses rest on that.
        let _ = self.seen_log.at();
        self.given
    }

    /// Whether a log, where so much is durable, has all that it has seen, and no durable number that it did not report.
    pub(crate) fn is_level(&self, now: &SeenLog, durable: u64) -> bool
        requires book { now.now.book ≡ self.now.book }
        requires durable { (newest_in now.now.log).durable ≡ durable }
        ensures { IsTrue result ↔ HasHeard now.now.log self.now }
    {
        // Two logs of one book begin with the same entries: the clause rests on that.
        let _ = now.compare(&self.seen_log);
        self.seen_log.at() <= now.at() && self.durable == durable
    }

    /// Sees a longer log, where so much is durable, with the count of news that it gives with it.
    pub(crate) fn move_on(&mut self, to: &SeenLog, durable: u64, given: u64)
        requires durable { (newest_in to.now.log).durable ≡ durable }
        requires book { to.now.book ≡ self.old.book }
        requires longer { IsPrefix self.old.log to.now.log }
        ensures { self.new ≡ record { book = self.old.book; log = to.now.log; given = given } }
    {
        self.seen_log = to.again();
        self.durable = durable;
        self.given = given;
    }
}
