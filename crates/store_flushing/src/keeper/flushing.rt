//! The loop of a flusher over reporter, store and list, which a keeper is made of meanwhile.
ghost use Rattle.std.specs.Prelude.{◌≡◌, false};
ghost use Rattle.root_store.specs.Running.{is_busy};
ghost use Rattle.book_history.specs.Logs.{history_of};
ghost use Rattle.kept_store.specs.Failing.{HoldsOfFailed};
ghost use Rattle.kept_store.specs.Storing.{HoldsOfStored, IsStoreOf, Flushes};
ghost use Rattle.store_flushing.specs.ReportNote.{NotesGoOn, notes_in};

use crate::flusher_loop::flush;
use crate::keeper::Keeper;
use crate::keeper::report_log::ReportLog;
use disk_model::disk::Disk;
use kept_store::held_store::HeldStore;
use kept_store::opened::ShutStore;
use std::alloc::Global;
use std::sync::Wait;
use version_book::reporter::Reporter;
use version_book::seen_log::BookName;
use version_book::shared::Shared;

/// Commits each version that the book gives, and reports it once it is stored, until the book closes or the device
/// fails. Meanwhile reporter, store and list are a keeper's: what a reporter alone reports nobody can write down.
pub fn flusher_loop<J: BookName, R: Wait + Drop, D: Disk, W: Wait>(
    rt: &W,
    alloc: Global,
    shared: &Shared<J, R>,
    reporter: Reporter,
    store: ShutStore<D>,
    notes: ReportLog,
) -> (Reporter, ShutStore<D>, ReportLog)
    requires book { reporter.book ≡ J.book }
    // The store is this book's own.
    requires own { reporter.book ≡ store.seen_log.book }
    requires name { store.flusher.commit.name ≡ J.store }
    // What this store holds may be reported durable, whenever it is reported.
    requires stored { HoldsOfStored D.Disk J.stored (history_of reporter.log) store.flusher }
    // For what it fails may be reported, too.
    requires failed { HoldsOfFailed D.Disk J.failed (history_of reporter.log) store.flusher }
    ensures flushes { IsStoreOf D.Disk (history_of reporter.log) store.flusher
        → Flushes D.Disk (history_of reporter.log) store.flusher (history_of result.0.log) result.1.flusher }
    ensures rests { is_busy result.1.flusher.commit.phase ≡ false }
    ensures same { result.0.book ≡ reporter.book }
    ensures own { result.1.seen_log.book ≡ result.0.book }
    ensures name { result.1.flusher.commit.name ≡ store.flusher.commit.name }
    // What it reports durable is written down at once, and from that moment on a crash leaves no older version.
    ensures reported { IsStoreOf D.Disk (history_of reporter.log) store.flusher
        → NotesGoOn D.Disk (history_of reporter.log) (notes_in notes) store.flusher.commit.disk
        (history_of result.0.log) (notes_in result.2) result.1.flusher.commit.disk }
{
    let held = HeldStore::of(&reporter, store);
    let mut keeper = Keeper::of(reporter, held, notes);
    flush(rt, alloc, shared, &mut keeper);
    let (reporter, held, notes) = keeper.into_parts();
    (reporter, held.into_store(), notes)
}
