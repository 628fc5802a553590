//! The log under the lock, which is what is published.
ghost use Rattle.std.specs.Prelude.{ℕ, ◌≡◌, ◌+◌, ◌<◌, ◌≤◌, [], ◌∷◌, ◌++◌, ◌⊎◌, ◌↔◌, length, slice_index, IfOk, IfErr};
ghost use Rattle.std.specs.Prelude.{IsTrue, All, false};
ghost use Rattle.std.specs.Arc.{arc_value};
ghost use mathlib.Core.List.{IsPrefix};
ghost use Rattle.left_right.specs.Sides.{view};
ghost use Rattle.overlay_terms.specs.Commands.{version_max};
ghost use Rattle.overlay_terms.specs.Histories.{commands_of, Follows};
ghost use Rattle.book_history.specs.Causes.{event_of, HasSeat, IsAskedFor, IsOwnReceipt};
ghost use Rattle.book_history.specs.Fault.{no_memory};
ghost use Rattle.book_history.specs.Logs.{entry, no_event, newest_in, IsLog};
ghost use Rattle.book_history.specs.Rules.{head_of};
ghost use Rattle.book_history.specs.Reporting.{ReportsStored, MayBeReported};
ghost use Rattle.book_lock.specs.Heard.{HasHeard};
ghost use Rattle.book_lock.specs.Steps.{HasLooked, IsLevel, beginners};

use crate::closed::ClosedBook;
use crate::reporter::Reporter;
use crate::session::Session;
use crate::shared_version::shared;
use book_history::entry::{Cause, counted};
use book_history::fault::{BookFault, NO_MEMORY};
use book_history::published::{Published, Publisher};
use book_history::publisher::{first_publisher, new_place, put_out};
use book_history::seen_log::{BookName, LogWord, SeenLog};
use std::alloc::Global;
use std::marker::Model;
use std::sync::{Arc, Wait};
use versions::Version;

mod keeping;

/// The most entries of a history after its first.
const MOST: u64 = 1 << 60;

/// What lies under the lock: the log that is published, and how many batches of each session it has.
pub struct LockedLog<J: BookName, R: Wait + Drop> {
    head: LogWord<J>,
    publisher: Publisher,
    counts: [u64; 4],
    rt: R,
}

impl<J: BookName, R: Wait + Drop> Model for LockedLog<J, R> {
    ghost use Rattle.std.specs.Prelude.{◌≡◌, ◌<◌, ℕ, List, [], length, drop, slice_index};
    ghost use Rattle.std.specs.Coded.{coded_list};
    ghost use Rattle.overlay_terms.specs.Histories as terms;
    ghost use Rattle.overlay_terms.specs.Histories.{commands_of};
    ghost use Rattle.book_history.specs.Codes.{entry_code};
    ghost use Rattle.book_history.specs.Rules.{head_of};
    ghost use Rattle.book_history.specs.Reporting.{ReportsStored};

    ghost Value = { List terms.Entry };

    ghost coded = { coded_list entry_code };

    ghost view = { λ d. d.publisher.desk.shown.value.seen_log.log };

    ghost invariant = { λ d. (d.head ≡ head_of J.book) × (d.publisher.desk.shown.value.seen_log.book ≡ J.book)
        × (drop d.publisher.behind d.publisher.log.items ≡ [])
        × ((by : ℕ) → by < 4 → slice_index d.counts by ≡ length (commands_of by d.publisher.desk.shown.value.seen_log.log))
        × ReportsStored J.stored d.publisher.desk.shown.value.seen_log.log };
}

impl<J: BookName, R: Wait + Drop> LockedLog<J, R> {
    /// The log under the lock, of one version, its reporter, and sessions that have seen just that.
    pub fn open(
        rt: R,
        alloc: Global,
        head: LogWord<J>,
        seen_log: SeenLog,
        version: Version,
        sessions: usize,
    ) -> Result<(LockedLog<J, R>, Reporter, Vec<Session>), BookFault>
        requires head { head ≡ head_of J.book }
        requires seen_log { (seen_log.book ≡ J.book) × (seen_log.log ≡ entry no_event version ∷ []) }
        requires sessions { (0 < sessions) × (sessions ≤ 4) }
        requires seats { sessions ≤ J.seats }
        ensures log { IfOk result (λ r. r.0 ≡ seen_log.log) }
        ensures reporter { IfOk result (λ r. r.1 ≡ record { book = seen_log.book; log = seen_log.log; given = 0 }) }
        ensures sessions { IfOk result (λ r. r.2.items ≡ beginners seen_log sessions) }
        ensures err { IfErr result (λ fault. (fault ≡ no_memory) ⊎ (fault ≡ BookFault.Gone)) }
    {
        let first = seen_log.again();
        let number = version.number();
        let reporter = Reporter::new(seen_log.again(), version.durable());
        let version = shared(alloc, version)?;
        let begun = Published { version, seen_log };
        let Some(publisher) = first_publisher(&rt, alloc, begun, sessions + 1) else {
            return Err(NO_MEMORY);
        };
        let mut publisher = publisher;
        let list = beginners(alloc, &mut publisher, &first, number, sessions);
        let log = LockedLog {
            head,
            publisher,
            counts: [0; 4],
            rt,
        };
        Ok((log, reporter, list?))
    }

    /// What is published last.
    pub fn last(&self) -> &Published
        ensures seen_log { result.now.seen_log ≡ record { book = J.book; log = self.now } }
        ensures version { arc_value result.now.version ≡ newest_in self.now }
        ensures log { IsLog self.now }
        ensures reported { ReportsStored J.stored self.now }
    {
        let last = self.publisher.published();
        // What was seen is a log with a first entry: the clauses rest on that.
        let _ = last.seen_log.at();
        last
    }

    /// Whether it has all that a session has seen, and just the batches that it made.
    pub fn is_level(&self, me: &Session) -> bool
        requires { me.now.book ≡ J.book }
        ensures longer { IsTrue result → IsPrefix me.now.log self.now }
        ensures own { IsTrue result → commands_of me.now.session self.now ≡ me.now.made }
        ensures seat { IsTrue result → me.now.session < 4 }
        ensures level { IsLevel self.now me.now → IsTrue result }
    {
        let by = me.number();
        by < 4
            && me.is_level(
                &self.publisher.published().seen_log,
                self.counts[by as usize],
            )
    }

    /// Whether it has all that was seen.
    pub fn has(&self, seen_log: &SeenLog) -> bool
        requires { seen_log.now.book ≡ J.book }
        ensures { IsTrue result ↔ IsPrefix seen_log.now.log self.now }
    {
        let last = self.last();
        // Two logs of one book begin with the same entries: the clause rests on that.
        last.seen_log.compare(seen_log);
        seen_log.at() <= last.seen_log.at()
    }

    /// A session sees all of it. It does not where that would be less than it has seen, or its batches are others.
    pub fn show(&self, me: &mut Session) -> Result<u64, BookFault>
        requires { me.old.book ≡ J.book }
        ensures ok { IfOk result (λ n. HasLooked me.old self.now me.new × ((newest_in self.now).number ≡ n)) }
        ensures err { IfErr result (λ fault. (fault ≡ BookFault.Gone) × (me.new ≡ me.old)) }
        ensures behind { IfErr result (λ _. ¬ (IsLevel self.now me.old)) }
    {
        if !self.is_level(me) {
            return Err(BookFault::Gone);
        }
        let last = self.last();
        let number = last.version.number();
        me.move_on(&last.seen_log, number);
        Ok(number)
    }

    /// Whether it has all that the reporter has seen, and no durable number that the reporter did not report.
    pub fn has_heard(&self, me: &Reporter) -> bool
        requires { me.now.book ≡ J.book }
        ensures { IsTrue result ↔ HasHeard self.now me.now }
    {
        let last = self.last();
        me.is_level(&last.seen_log, last.version.durable())
    }

    /// The reporter sees all of it, with the count of news that it gives with it.
    pub fn show_to_reporter(&self, me: &mut Reporter, given: u64)
        requires book { me.old.book ≡ J.book }
        requires heard { HasHeard self.now me.old }
        ensures { me.new ≡ record { book = me.old.book; log = self.now; given = given } }
    {
        let last = self.last();
        me.move_on(&last.seen_log, last.version.durable(), given);
    }

    /// Adds an entry that follows the newest version, or nothing.
    pub(crate) fn add(
        &mut self,
        cause: Cause<'_>,
        version: Arc<Version, Global>,
    ) -> Result<(), BookFault>
        requires follows { Follows (newest_in self.old) (event_of cause) (arc_value version) }
        requires seat { HasSeat cause }
        requires reported { ((arc_value version).durable ≡ (newest_in self.old).durable)
            ⊎ MayBeReported J.stored self.old (arc_value version).durable }
        requires asked { IsAskedFor J.asked cause }
        requires own { IsOwnReceipt J.store cause }
        ensures ok { IfOk result (λ _. self.new ≡ self.old ++ entry (event_of cause.entry) (arc_value version) ∷ []) }
        ensures room { IfOk result (λ _. length self.old < version_max) }
        ensures err { IfErr result (λ fault. (fault ≡ BookFault.Gone) × (self.new ≡ self.old)) }
    {
        let mut seen_log = self.publisher.published().seen_log.again();
        if seen_log.at() >= MOST || !seen_log.add(&self.head, cause, &version) {
            return Err(BookFault::Gone);
        }
        let next = Published { version, seen_log };
        put_out(&self.rt, &mut self.publisher, next);
        self.counts = counted(self.counts, cause);
        Ok(())
    }

    /// The newest version and the log. It waits for the readers.
    pub fn into_closed(self) -> ClosedBook
        ensures version { arc_value result.version ≡ newest_in result.seen_log.log }
        ensures log { (result.seen_log ≡ record { book = J.book; log = self }) × IsLog result.seen_log.log }
        ensures durable { All (λ entry. entry.version.durable ≤ (newest_in result.seen_log.log).durable) result.seen_log.log }
    {
        let LockedLog {
            head: _head,
            publisher,
            counts: _,
            rt,
        } = self;
        let last = Box::into_inner(publisher.take(&rt));
        let (version, seen_log) = last.into_parts();
        // What was seen is a log with a first entry: the clauses rest on that.
        let _ = seen_log.at();
        ClosedBook { version, seen_log }
    }
}

/// It waits for the readers.
impl<J: BookName, R: Wait + Drop> Drop for LockedLog<J, R> {
    fn drop(self) {
        let Self {
            head: _head,
            publisher,
            counts: _,
            rt,
        } = self;
        drop(publisher.take(&rt));
    }
}

// So many sessions that have seen what the publisher knows.
fn beginners(
    alloc: Global,
    publisher: &mut Publisher,
    first: &SeenLog,
    newest: u64,
    sessions: usize,
) -> Result<Vec<Session>, BookFault>
    requires known { view publisher.old.desk.place ≡ first.now }
    requires newest { (newest_in first.now.log).number ≡ newest }
    ensures kept { (publisher.new.desk.shown ≡ publisher.old.desk.shown) × (publisher.new.log ≡ publisher.old.log)
        × (publisher.new.behind ≡ publisher.old.behind) }
    ensures given { IfOk result (λ list. list.items ≡ beginners first.now sessions) }
    ensures err { IfErr result (λ fault. (fault ≡ no_memory) ⊎ (fault ≡ BookFault.Gone)) }
{
    let mut list = Vec::new(alloc);
    for number in 0..sessions {
        let Some(place) = new_place(publisher) else {
            return Err(BookFault::Gone);
        };
        let session = Session::new(number as u64, newest, first.again(), place);
        if list.push(session).is_err() {
            return Err(NO_MEMORY);
        }
    }
    Ok(list)
}
