//! The loop of a flusher: calls of a keeper, and nothing else. It has no other way to the store.
ghost use Rattle.std.specs.Prelude.{◌≡◌, ◌⊎◌, false};
ghost use Rattle.overlay_terms.specs.Histories.{IsHistory, newest};
ghost use Rattle.root_store.specs.Running.{is_busy};
ghost use Rattle.root_store.specs.declared.phase.Phase.TheVariants as phases;
ghost use Rattle.book_history.specs.Logs.{history_of};
ghost use Rattle.kept_store.specs.Failing.{HoldsOfFailed};
ghost use Rattle.kept_store.specs.Storing.{HoldsOfStored, IsStoreOf, Flushes};
ghost use Rattle.store_flushing.specs.ReportNote.{KeepsNotes};

use crate::keeper::Keeper;
use disk_model::disk::Disk;
use root_store::phase::Progress;
use std::alloc::Global;
use std::sync::Wait;
use version_book::resting::rest;
use version_book::seen_log::BookName;
use version_book::shared::Shared;
use versions::Version;

/// Commits each version that the book gives, and reports it once it is stored, until the book closes or the device
/// fails.
///
/// Where the book refuses to give or to take for want of memory (40, 44), it is asked again. Where the store refuses a
/// commit (31, 36, 40), the book hears of it, and gives the next version after the next accepted command. A device that
/// fails (30, 35) ends the loop, and the book hears of it. At closing the commit under way is ended, and what the book
/// still gives is committed. Called once more then, when the workers have returned, it commits the tiles that they
/// finished meanwhile.
pub fn flush<J: BookName, R: Wait + Drop, D: Disk, W: Wait>(
    rt: &W,
    alloc: Global,
    shared: &Shared<J, R>,
    keeper: &mut Keeper<D>,
)
    requires book { keeper.old.reporter.book ≡ J.book }
    requires own { keeper.old.held.flusher.commit.name ≡ J.store }
    requires stored { HoldsOfStored D.Disk J.stored (history_of keeper.old.reporter.log) keeper.old.held.flusher }
    requires failed { HoldsOfFailed D.Disk J.failed (history_of keeper.old.reporter.log) keeper.old.held.flusher }
    // What it stores it reports, and a crash at any moment leaves a version that the reporter has seen in the end, no
    // older than what was stored at first.
    ensures flushes { IsStoreOf D.Disk (history_of keeper.old.reporter.log) keeper.old.held.flusher
        → Flushes D.Disk (history_of keeper.old.reporter.log) keeper.old.held.flusher
        (history_of keeper.new.reporter.log) keeper.new.held.flusher }
    ensures notes_stay { KeepsNotes D.Disk keeper.old keeper.new }
    // No commit is left half done, unless the device failed.
    ensures rests { is_busy keeper.new.held.flusher.commit.phase ≡ false }
    ensures same { keeper.new.reporter.book ≡ keeper.old.reporter.book }
    ensures name { keeper.new.held.flusher.commit.name ≡ keeper.old.held.flusher.commit.name }
{
    'rounds: for _ in rt.forever() {
        if !round(rt, alloc, shared, keeper) {
            return;
        }
    }
    unreachable!()
}

/// Ends the commit that is under way, or commits what the book gives. It says whether there is a next round: there is
/// none where the device failed, or where the book closes and has no news.
fn round<J: BookName, R: Wait + Drop, D: Disk, W: Wait>(
    rt: &W,
    alloc: Global,
    shared: &Shared<J, R>,
    keeper: &mut Keeper<D>,
) -> bool
    requires book { keeper.old.reporter.book ≡ J.book }
    requires own { keeper.old.held.flusher.commit.name ≡ J.store }
    requires stored { HoldsOfStored D.Disk J.stored (history_of keeper.old.reporter.log) keeper.old.held.flusher }
    requires failed { HoldsOfFailed D.Disk J.failed (history_of keeper.old.reporter.log) keeper.old.held.flusher }
    ensures flushes { IsStoreOf D.Disk (history_of keeper.old.reporter.log) keeper.old.held.flusher
        → Flushes D.Disk (history_of keeper.old.reporter.log) keeper.old.held.flusher
        (history_of keeper.new.reporter.log) keeper.new.held.flusher }
    ensures notes_stay { KeepsNotes D.Disk keeper.old keeper.new }
    ensures rests { is_busy keeper.new.held.flusher.commit.phase ≡ false }
    ensures ends { result ≡ false → (keeper.new.held.flusher.commit.phase ≡ phases.Failed) ⊎ (keeper.new ≡ keeper.old) }
    ensures same { keeper.new.reporter.book ≡ keeper.old.reporter.book }
    ensures name { keeper.new.held.flusher.commit.name ≡ keeper.old.held.flusher.commit.name }
{
    if keeper.busy() {
        return end_commit(rt, alloc, shared, keeper);
    }
    match keeper.look(rt, shared) {
        Ok(Some(version)) => commit(rt, alloc, shared, keeper, &version),
        Ok(None) => false,
        Err(_) => {
            rest(rt);
            true
        }
    }
}

/// Commits the newest version that the reporter has seen. It says whether the store can go on.
fn commit<J: BookName, R: Wait + Drop, D: Disk, W: Wait>(
    rt: &W,
    alloc: Global,
    shared: &Shared<J, R>,
    keeper: &mut Keeper<D>,
    version: &Version,
) -> bool
    requires book { keeper.old.reporter.book ≡ J.book }
    requires own { keeper.old.held.flusher.commit.name ≡ J.store }
    requires stored { HoldsOfStored D.Disk J.stored (history_of keeper.old.reporter.log) keeper.old.held.flusher }
    requires failed { HoldsOfFailed D.Disk J.failed (history_of keeper.old.reporter.log) keeper.old.held.flusher }
    requires idle { is_busy keeper.old.held.flusher.commit.phase ≡ false }
    requires history { IsHistory (history_of keeper.old.reporter.log) }
    requires newest { version.now ≡ newest (history_of keeper.old.reporter.log) }
    ensures flushes { IsStoreOf D.Disk (history_of keeper.old.reporter.log) keeper.old.held.flusher
        → Flushes D.Disk (history_of keeper.old.reporter.log) keeper.old.held.flusher
        (history_of keeper.new.reporter.log) keeper.new.held.flusher }
    ensures notes_stay { KeepsNotes D.Disk keeper.old keeper.new }
    ensures rests { is_busy keeper.new.held.flusher.commit.phase ≡ false }
    ensures ends { result ≡ false → keeper.new.held.flusher.commit.phase ≡ phases.Failed }
    ensures same { keeper.new.reporter.book ≡ keeper.old.reporter.book }
    ensures name { keeper.new.held.flusher.commit.name ≡ keeper.old.held.flusher.commit.name }
{
    match keeper.begin(alloc, version) {
        Ok(()) => end_commit(rt, alloc, shared, keeper),
        Err(fault) => keeper.report_fault(rt, shared, fault),
    }
}

/// Makes the device calls of the commit that is under way, and reports it where it is done. It says whether the store
/// can go on.
fn end_commit<J: BookName, R: Wait + Drop, D: Disk, W: Wait>(
    rt: &W,
    alloc: Global,
    shared: &Shared<J, R>,
    keeper: &mut Keeper<D>,
) -> bool
    requires book { keeper.old.reporter.book ≡ J.book }
    requires own { keeper.old.held.flusher.commit.name ≡ J.store }
    requires stored { HoldsOfStored D.Disk J.stored (history_of keeper.old.reporter.log) keeper.old.held.flusher }
    requires failed { HoldsOfFailed D.Disk J.failed (history_of keeper.old.reporter.log) keeper.old.held.flusher }
    ensures flushes { IsStoreOf D.Disk (history_of keeper.old.reporter.log) keeper.old.held.flusher
        → Flushes D.Disk (history_of keeper.old.reporter.log) keeper.old.held.flusher
        (history_of keeper.new.reporter.log) keeper.new.held.flusher }
    ensures notes_stay { KeepsNotes D.Disk keeper.old keeper.new }
    ensures rests { is_busy keeper.new.held.flusher.commit.phase ≡ false }
    ensures ends { result ≡ false → keeper.new.held.flusher.commit.phase ≡ phases.Failed }
    ensures same { keeper.new.reporter.book ≡ keeper.old.reporter.book }
    ensures name { keeper.new.held.flusher.commit.name ≡ keeper.old.held.flusher.commit.name }
{
    'calls: for _ in rt.forever() {
        match keeper.step() {
            Ok(Progress::Going) => {}
            Ok(Progress::Idle) => return true,
            Ok(Progress::Done(_)) => {
                keeper.report(rt, alloc, shared);
                return true;
            }
            Err(fault) => return keeper.report_fault(rt, shared, fault),
        }
    }
    unreachable!()
}
