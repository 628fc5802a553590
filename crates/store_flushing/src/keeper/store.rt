//! The store of a book with the book's one reporter, from the first commit to the end.
ghost use Rattle.std.specs.Prelude.{◌≡◌, ◌<◌, ◌≤◌, [], length, All, MatchOption, None, Some};
ghost use Rattle.std.specs.Arc.{arc_value};
ghost use Rattle.book_history.specs.Logs.{newest_in, IsLog};
ghost use Rattle.book_lock.specs.Heard.{HasHeard};
ghost use Rattle.book_lock.specs.Steps.{HasAllOf};
ghost use Rattle.store_flushing.specs.Stores.{flusher_in, reporter_of, notes_by};
ghost use Rattle.store_flushing.specs.ReportNote.{notes_in};
ghost use Rattle.kept_store.specs.Unstored.{IsReasonGiven};

use crate::closed::{Closed, end_book};
use crate::keeper::Keeper;
use crate::keeper::report_log::ReportLog;
use disk_model::disk::Disk;
use kept_store::held_store::HeldStore;
use kept_store::left::StoreLeft;
use kept_store::opened::Opened;
use root_store::shut::Shut;
use std::alloc::Global;
use std::sync::Wait;
use version_book::reporter::Reporter;
use version_book::seen_log::BookName;
use version_book::session::Session;
use version_book::shared::Shared;

/// A book's store with its keeper, or the book's reporter alone, where there is no store.
#[derive(Drop)]
pub enum Store<D: Disk> {
    Kept(Keeper<D>),
    Alone(Reporter),
}

impl<D: Disk> Store<D> {
    /// That of a book that begins, whose store it is: nothing was reported.
    pub fn new(reporter: Reporter, opened: Opened<D>) -> Store<D>
        requires book { reporter.book ≡ opened.seen_log.book }
        ensures reporter { reporter_of result ≡ reporter }
        ensures flusher { flusher_in result ≡ opened.flusher }
        ensures notes { notes_by result ≡ [] }
    {
        match opened.into_store() {
            Some(store) => {
                let held = HeldStore::of(&reporter, store);
                Store::Kept(Keeper::of(reporter, held, ReportLog::none()))
            }
            None => Store::Alone(reporter),
        }
    }

    /// Ends a book once the threads that share it have returned, and gives up its store, whose disk stays shut. The
    /// sessions are all that it began with.
    pub fn close<J: BookName, R: Wait + Drop, W: Wait>(
        self,
        rt: &W,
        alloc: Global,
        shared: Shared<J, R>,
        sessions: &[Session],
    ) -> Closed<Shut<D>>
        requires reporter { (reporter_of self).book ≡ J.book }
        requires sessions { All (λ session. session.book ≡ J.book) sessions.now }
        ensures version { arc_value result.version ≡ newest_in result.seen_log.log }
        ensures log { IsLog result.seen_log.log }
        ensures reporter { HasHeard result.seen_log.log (reporter_of self) }
        ensures begun { 0 < length (reporter_of self).log }
        ensures sessions { All (λ session. HasAllOf result.seen_log.log session) sessions.now }
        ensures durable { All (λ entry. entry.version.durable
            ≤ (newest_in result.seen_log.log).durable) result.seen_log.log }
        ensures store { MatchOption (flusher_in self) ((result.stored ≡ 0) × (result.disk ≡ None))
            (λ f. (result.stored ≡ f.commit.root.version) × (result.disk ≡ Some f.commit.disk)) }
        // Where the newest version is not stored and the store would not begin its commit, the book is given the reason.
        ensures fault { MatchOption (flusher_in self) (result.fault ≡ None)
            (λ f. IsReasonGiven result.fault f (arc_value result.version)) }
        ensures notes { notes_in result.notes ≡ notes_by self }
    {
        match self {
            Store::Kept(keeper) => {
                let Keeper {
                    reporter,
                    held,
                    notes,
                } = keeper;
                let book = end_book(rt, shared, &reporter, sessions);
                let StoreLeft {
                    stored,
                    fault,
                    disk,
                } = held.end(alloc, &book.version);
                Closed {
                    version: book.version,
                    seen_log: book.seen_log,
                    stored,
                    fault,
                    disk,
                    notes,
                }
            }
            Store::Alone(reporter) => {
                let book = end_book(rt, shared, &reporter, sessions);
                Closed {
                    version: book.version,
                    seen_log: book.seen_log,
                    stored: 0,
                    fault: None,
                    disk: None,
                    notes: ReportLog::none(),
                }
            }
        }
    }

    /// Gives the store up with its reporter. The disk stays shut.
    pub fn into_disk(self) -> Option<Shut<D>>
        ensures { MatchOption (flusher_in self) (result ≡ None) (λ f. result ≡ Some f.commit.disk) }
    {
        match self {
            Store::Kept(keeper) => {
                let Keeper {
                    reporter: _reporter,
                    held,
                    notes: _notes,
                } = keeper;
                held.into_disk()
            }
            Store::Alone(_reporter) => None,
        }
    }
}
