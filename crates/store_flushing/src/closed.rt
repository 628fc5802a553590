//! The end of a book and its store.
ghost use Rattle.std.specs.Prelude.{◌≡◌, ◌<◌, ◌≤◌, length, All, IfSome, IfNone, Some, None};
ghost use Rattle.std.specs.Arc.{arc_value};
ghost use mathlib.Core.List.{IsPrefix};
ghost use Rattle.disk_model.specs.Moments.{Leaves};
ghost use Rattle.root_store.specs.declared.phase.Phase.TheVariants as phases;
ghost use Rattle.book_history.specs.Logs.{history_of, newest_in, IsLog};
ghost use Rattle.book_lock.specs.Heard.{HasHeard};
ghost use Rattle.book_lock.specs.Steps.{HasAllOf};
ghost use Rattle.kept_store.specs.Among.{IsFileExactlyIn, IsFileIn};
ghost use Rattle.kept_store.specs.Storing.{IsStoreOf};
ghost use Rattle.store_flushing.specs.ReportNote.{NotesGoOn, notes_in};
ghost use Rattle.kept_store.specs.Unstored.{IsUnstoredFor};

use crate::keeper::report_log::ReportLog;
use commit_plan::fault::StoreFault;
use disk_model::disk::Disk;
use kept_store::left::StoreLeft;
use kept_store::opened::ShutStore;
use root_store::shut::Shut;
use std::alloc::Global;
use std::sync::{Arc, Wait};
use version_book::closing::ClosedBook;
use version_book::reporter::Reporter;
use version_book::seen_log::{BookName, SeenLog};
use version_book::session::Session;
use version_book::shared::Shared;
use versions::Version;

/// What is left of a book and its store.
#[derive(Debug, Drop)]
pub struct Closed<D> {
    /// The newest version.
    pub version: Arc<Version, Global>,
    /// The log that it ends.
    pub seen_log: SeenLog,
    /// The number of the version that is stored; 0 without a store.
    pub stored: u64,
    /// Why the newest version is not stored, where the store refuses it.
    pub fault: Option<StoreFault>,
    /// The store's disk.
    pub disk: Option<D>,
    /// What was reported durable, and when.
    pub notes: ReportLog,
}

/// Ends a book once the threads that share it have returned, and gives up its store, as `flusher_loop` has left it, or
/// as it was opened where none ran. The sessions are all that it began with.
pub fn close<J: BookName, R: Wait + Drop, D: Disk, W: Wait>(
    rt: &W,
    alloc: Global,
    shared: Shared<J, R>,
    reporter: Reporter,
    store: Option<ShutStore<D>>,
    notes: ReportLog,
    sessions: Vec<Session>,
) -> Closed<Shut<D>>
    requires reporter { reporter.book ≡ J.book }
    requires sessions { All (λ session. session.book ≡ J.book) sessions.items }
    // The version ends a log that has all that the tokens have seen, and of each session's commands just those that it
    // made.
    ensures version { arc_value result.version ≡ newest_in result.seen_log.log }
    ensures log { (result.seen_log.book ≡ J.book) × IsLog result.seen_log.log }
    ensures reporter { IsPrefix reporter.log result.seen_log.log }
    ensures sessions { All (λ session. HasAllOf result.seen_log.log session) sessions.items }
    ensures none { IfNone store ((result.stored ≡ 0) × (result.disk ≡ None)) }
    ensures disk { IfSome store
        (λ s. (result.stored ≡ s.flusher.commit.root.version) × (result.disk ≡ Some s.flusher.commit.disk)) }
    // Where the newest version is not stored and the store would not begin its commit, the book is given the reason.
    ensures fault { IfSome result.fault
        (λ fault. IfSome store (λ s. IsUnstoredFor fault s.flusher (arc_value result.version))) }
    ensures failed { IfSome store (λ s. s.flusher.commit.phase ≡ phases.Failed
        → s.flusher.commit.root.version < (arc_value result.version).number
        → result.fault ≡ Some StoreFault.Failed) }
    // All that is reported is stored, where it was for the reporter.
    ensures reported { IfSome store (λ s. (newest_in reporter.log).durable ≤ s.flusher.commit.root.version
        → All (λ entry. entry.version.durable ≤ result.stored) result.seen_log.log) }
    // Every file that a crash may leave holds a version of the log, where it held one of the reporter's.
    ensures files { IfSome store
        (λ s. Leaves D.Disk s.flusher.commit.disk (IsFileIn (history_of reporter.log) s.flusher.commit.root.version)
        → IfSome result.disk (λ disk. Leaves D.Disk disk (IsFileIn (history_of result.seen_log.log) result.stored))) }
    // It is just the version that is stored, where no commit is under way and the device did not fail.
    ensures exactly { IfSome store (λ s. IsStoreOf D.Disk (history_of reporter.log) s.flusher
        → s.flusher.commit.phase ≡ phases.Idle
        → IfSome result.disk (λ disk. Leaves D.Disk disk
        (IsFileExactlyIn (history_of result.seen_log.log) result.stored))) }
    // What was written down as it was reported is all that the log reports durable, and it stays so.
    ensures written { result.notes ≡ notes }
    ensures notes_stay { IfSome store
        (λ s. IfSome result.disk (λ disk. NotesGoOn D.Disk (history_of reporter.log) (notes_in notes)
        s.flusher.commit.disk (history_of result.seen_log.log) (notes_in result.notes) disk)) }
{
    let book = end_book(rt, shared, &reporter, &sessions);
    let StoreLeft {
        stored,
        fault,
        disk,
    } = left_of(alloc, store, &book.version);
    Closed {
        version: book.version,
        seen_log: book.seen_log,
        stored,
        fault,
        disk,
        notes,
    }
}

/// What is left of a store, if there is one, with why it would not begin the commit of the newest version. It makes no
/// device call.
fn left_of<D: Disk>(alloc: Global, store: Option<ShutStore<D>>, version: &Version) -> StoreLeft<D>
    ensures none { IfNone store ((result.stored ≡ 0) × (result.disk ≡ None)) }
    ensures some { IfSome store
        (λ s. (result.stored ≡ s.flusher.commit.root.version) × (result.disk ≡ Some s.flusher.commit.disk)) }
    ensures fault { IfSome result.fault (λ fault. IfSome store (λ s. IsUnstoredFor fault s.flusher version.now)) }
    ensures failed { IfSome store (λ s. s.flusher.commit.phase ≡ phases.Failed
        → s.flusher.commit.root.version < version.now.number → result.fault ≡ Some StoreFault.Failed) }
{
    match store {
        Some(store) => store.left(alloc, version),
        None => StoreLeft {
            stored: 0,
            fault: None,
            disk: None,
        },
    }
}

/// Ends a book once the threads that share it have returned.
pub(crate) fn end_book<J: BookName, R: Wait + Drop, W: Wait>(
    rt: &W,
    shared: Shared<J, R>,
    reporter: &Reporter,
    sessions: &[Session],
) -> ClosedBook
    requires reporter { reporter.now.book ≡ J.book }
    requires sessions { All (λ session. session.book ≡ J.book) sessions.now }
    ensures version { arc_value result.version ≡ newest_in result.seen_log.log }
    ensures log { (result.seen_log.book ≡ J.book) × IsLog result.seen_log.log }
    ensures reporter { HasHeard result.seen_log.log reporter.now }
    ensures begun { 0 < length reporter.now.log }
    ensures sessions { All (λ session. HasAllOf result.seen_log.log session) sessions.now }
    ensures durable { All (λ entry. entry.version.durable
        ≤ (newest_in result.seen_log.log).durable) result.seen_log.log }
{
    // What the reporter has seen is a log with a first entry: the clauses rest on that.
    let _ = reporter.given();
    shared.into_closed(rt, reporter, sessions)
}
