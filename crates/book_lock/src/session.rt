//! A session: what it has seen and made.
ghost use Rattle.std.specs.Prelude.{◌≡◌, ◌+◌, ◌<◌, ◌≤◌, ◌++◌, ◌∷◌, [], length, IfOk, IfErr, IfSome, IsTrue};
ghost use Rattle.std.specs.Arc.{arc_value};
ghost use Rattle.left_right.specs.Sides.{view as place_view};
ghost use mathlib.Core.List.{IsPrefix};
ghost use Rattle.overlay_terms.specs.Commands.{version_max};
ghost use Rattle.overlay_terms.specs.Batches.{Batch};
ghost use Rattle.overlay_terms.specs.Histories.{commands_of, newest, BeginsWith, IsHistory};
ghost use Rattle.book_history.specs.Logs.{newest_in, IsLog};
ghost use Rattle.book_history.specs.Known.{seen};

use book_history::fault::BookFault;
use book_history::published::{ReaderPlace, Sees};
use book_history::reader_place::moved;
use book_history::seen_log::SeenLog;
use std::alloc::{AllocError, Global};
use std::fmt;
use std::marker::Model;
use std::sync::Arc;
use versions::Version;

/// A session: what it has seen and made.
#[derive(Drop)]
pub struct Session {
    number: u64,
    count: u64,
    newest: u64,
    seen_log: SeenLog,
    place: Option<ReaderPlace>,
}

impl Model for Session {
    ghost use Rattle.std.specs.Prelude.{◌≡◌, ◌≤◌, ◌<◌, length, take, IfSome};
    ghost use Rattle.left_right.specs.Sides.{view as place_view};
    ghost use Rattle.overlay_terms.specs.Histories.{commands_of};
    ghost use Rattle.book_history.specs.Known.{Known};
    ghost use Rattle.book_history.specs.Logs.{newest_in};
    ghost use Rattle.book_history.specs.BookLogs.{Begins};
    ghost use Rattle.book_history.specs.KnownCodes.{known_code};

    ghost Value = { Known };

    ghost coded = { known_code };

    ghost view = { λ s. record { book = s.seen_log.book; session = s.number; log = s.seen_log.log; made = take s.count (commands_of s.number s.seen_log.log) } };

    ghost invariant = { λ s. (s.count ≤ length (commands_of s.number s.seen_log.log)) × (0 < length s.seen_log.log) × IfSome s.place (λ r. Begins s.seen_log (place_view r.place)) × ((newest_in s.seen_log.log).number ≡ s.newest) };
}

impl fmt::Debug for Session {
    fn fmt<W: fmt::Write>(&self, f: &mut fmt::Formatter<W>) -> fmt::Result {
        f.debug_struct("Session")
            .field("number", &self.number)
            .field("count", &self.count)
            .field("newest", &self.newest)
            .field("seen_log", &self.seen_log)
            .finish_non_exhaustive()
    }
}

impl Session {
    /// A session that has seen this, and made nothing.
    pub(crate) fn new(number: u64, newest: u64, seen_log: SeenLog, place: ReaderPlace) -> Session
        requires place { place_view place.place ≡ seen_log }
        requires newest { (newest_in seen_log.log).number ≡ newest }
        ensures { result ≡ record { book = seen_log.book; session = number; log = seen_log.log; made = [] } }
    {
        // What was seen is a log with a first entry: the clauses rest on that.
        let _ = seen_log.at();
        Session {
            number,
            count: 0,
            newest,
            seen_log,
            place: Some(place),
        }
    }

    /// Its number.
    pub fn number(&self) -> u64
        ensures value { result ≡ self.now.session }
        ensures valid { IsLog self.now.log }
        ensures begun { 0 < length self.now.log }
    {
        // What was seen is a log with a first entry: the clauses rest on that.
        let _ = self.seen_log.at();
        self.number
    }

    /// How many batches it made.
    pub fn made_count(&self) -> u64
        ensures { result ≡ length self.now.made }
    {
        self.count
    }

    /// The number of the newest version that it has seen.
    pub fn newest(&self) -> u64
        ensures { result ≡ (newest_in self.now.log).number }
    {
        self.newest
    }

    /// What it has seen.
    pub fn seen_log(&self) -> &SeenLog
        ensures { (result.now.log ≡ self.now.log) × (result.now.book ≡ self.now.book) }
    {
        &self.seen_log
    }

    /// Whether a log with so many batches of this session has all that it has seen, and just the batches that
    /// it made.
    pub(crate) fn is_level(&self, now: &SeenLog, count: u64) -> bool
        requires book { now.now.book ≡ self.now.book }
        requires count { count ≡ length (commands_of self.now.session now.now.log) }
        ensures longer { IsTrue result → IsPrefix self.now.log now.now.log }
        ensures own { IsTrue result → commands_of self.now.session now.now.log ≡ self.now.made }
        ensures count { IsTrue result → count ≡ length self.now.made }
        ensures level { IsPrefix self.now.log now.now.log → commands_of self.now.session now.now.log ≡ self.now.made
            → IsTrue result }
    {
        // Two logs of one book begin with the same entries: the clauses rest on that.
        let _ = now.compare(&self.seen_log);
        self.seen_log.at() <= now.at() && self.count == count
    }

    /// Sees a longer log, and moves its place on to what is published.
    pub(crate) fn move_on(&mut self, to: &SeenLog, newest: u64)
        requires newest { (newest_in to.now.log).number ≡ newest }
        requires book { to.now.book ≡ self.old.book }
        requires longer { IsPrefix self.old.log to.now.log }
        ensures { self.new ≡ record { book = self.old.book; session = self.old.session; log = to.now.log; made = self.old.made } }
    {
        let place = self.place.take();
        self.newest = newest;
        self.seen_log = to.again();
        self.place = moved(place, to);
    }

    /// Sees a longer log, whose last entry is the batch that it just made.
    pub(crate) fn made_one(&mut self, to: &SeenLog, newest: u64)
        requires newest { (newest_in to.now.log).number ≡ newest }
        requires book { to.now.book ≡ self.old.book }
        requires longer { IsPrefix self.old.log to.now.log }
        requires own { (batch : Batch) × (commands_of self.old.session to.now.log ≡ self.old.made ++ batch ∷ []) }
        requires room { length self.old.made < version_max }
        ensures { self.new ≡ record { book = self.old.book; session = self.old.session; log = to.now.log; made = commands_of self.old.session to.now.log } }
    {
        let place = self.place.take();
        self.count += 1;
        self.newest = newest;
        self.seen_log = to.again();
        self.place = moved(place, to);
    }

    /// The last version. It waits for nobody.
    pub fn snapshot(&mut self) -> Result<Arc<Version, Global>, BookFault>
        ensures goes_on { BeginsWith (seen self.new) (seen self.old) }
        ensures newest { IfOk result (λ version. arc_value version ≡ newest (seen self.new)) }
        ensures history { IsHistory (seen self.new) }
        ensures same { (self.new.book ≡ self.old.book) × (self.new.session ≡ self.old.session) × (self.new.made ≡ self.old.made) }
        ensures err { IfErr result (λ fault. (fault ≡ BookFault.Gone) × (self.new ≡ self.old)) }
    {
        // What it has seen is a log with a first entry: a clause rests on that.
        let _ = self.seen_log.at();
        let Some(place) = self.place.take() else {
            return Err(BookFault::Gone);
        };
        match place.enter_as::<Sees>() {
            Ok(reading) => {
                let copy = reading.get().again();
                self.place = Some(reading.leave());
                match copy {
                    Ok(copy) => {
                        // What was seen is a log with a first entry: the clauses rest on that.
                        let _ = copy.seen_log.at();
                        let (version, seen_log) = copy.into_parts();
                        self.newest = version.number();
                        self.seen_log = seen_log;
                        Ok(version)
                    }
                    Err(AllocError) => Err(BookFault::Gone),
                }
            }
            Err(place) => {
                self.place = Some(place);
                Err(BookFault::Gone)
            }
        }
    }
}
