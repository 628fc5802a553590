//! A store, and the one token that may report what it stores, as one value.
ghost use Rattle.std.specs.Prelude.{◌≡◌, ◌⊎◌, ◌++◌, false, Err, IfErr, IfOk, IfSome, IfNone, OnErr};
ghost use Rattle.std.specs.Arc.{arc_value};
ghost use Rattle.overlay_terms.specs.Histories.{IsHistory, newest};
ghost use Rattle.disk_model.specs.Disk.{Failed};
ghost use Rattle.root_store.specs.Beginning.{IsReason};
ghost use Rattle.root_store.specs.Running.{Counts, calls_left, is_busy};
ghost use Rattle.root_store.specs.declared.phase.Phase.TheVariants as phases;
ghost use Rattle.flush_core.specs.Stored.{HasNoRoomFor, stored_after};
ghost use Rattle.book_history.specs.Fault.{passes};
ghost use Rattle.book_history.specs.Logs.{history_of, newest_in};
ghost use Rattle.kept_store.specs.Storing.{AllReported, IsStoreOf, Keeps};
ghost use Rattle.kept_store.specs.ReportedFaults.{reported_fault_of};

pub use crate::flusher_loop::flush;
pub use crate::keeper::flushing::flusher_loop;
use crate::keeper::report_log::ReportLog;
use crate::reports;
use commit_plan::fault::StoreFault;
use disk_model::disk::Disk;
use kept_store::held_store::HeldStore;
use root_store::phase::Progress;
use std::alloc::Global;
use std::snapshot::Snapshot;
use std::sync::{Arc, Wait};
use version_book::fault::BookFault;
use version_book::reporter::Reporter;
use version_book::seen_log::BookName;
use version_book::shared::Shared;
use versions::Version;

mod flushing;
pub mod report_log;
pub mod store;

/// A store, and the one token that may report what it stores. Both are reached by its calls alone. None of them moves
/// the disk and reports: so what was reported durable to a session by the end of a call was stored as the call began,
/// whenever within it that was. What a keeper reports it writes down in the same call, with the disk's moment, and
/// nothing else can write there.
#[derive(Drop)]
pub struct Keeper<D: Disk> {
    reporter: Reporter,
    held: HeldStore<D>,
    notes: ReportLog,
    ghost same_book: { ∥ held.seen_log.book ≡ reporter.book ∥₁ },
}

impl<D: Disk> Keeper<D> {
    ghost use Rattle.store_flushing.specs.ReportNote.{KeepsNotes, news_in, notes_at, notes_in};

    /// A keeper of a reporter, a store, and what was reported durable.
    fn of(reporter: Reporter, held: HeldStore<D>, notes: ReportLog) -> Keeper<D>
        requires { held.seen_log.book ≡ reporter.book }
        ensures reporter { result.reporter ≡ reporter }
        ensures held { result.held ≡ held }
        ensures notes { result.notes ≡ notes }
    {
        Keeper {
            reporter,
            held,
            notes,
        }
    }

    /// What it was made of, as its calls left it.
    fn into_parts(self) -> (Reporter, HeldStore<D>, ReportLog)
        ensures reporter { result.0 ≡ self.reporter }
        ensures held { result.1 ≡ self.held }
        ensures notes { result.2 ≡ self.notes }
        ensures book { result.1.seen_log.book ≡ result.0.book }
    {
        let Keeper {
            reporter,
            held,
            notes,
        } = self;
        (reporter, held, notes)
    }

    /// Whether a commit is under way.
    pub fn busy(&self) -> bool
        ensures { result ≡ is_busy self.now.held.flusher.commit.phase }
    {
        self.held.busy()
    }

    /// Waits for news, and sees the newest version. It makes no device call, and reports nothing.
    pub fn look<J: BookName, R: Wait + Drop, W: Wait>(
        &mut self,
        rt: &W,
        shared: &Shared<J, R>,
    ) -> Result<Option<Arc<Version, Global>>, BookFault>
        requires { self.old.reporter.book ≡ J.book }
        ensures keeps { Keeps D.Disk self.old.reporter self.old.held.flusher self.new.reporter self.new.held.flusher }
        ensures notes_stay { KeepsNotes D.Disk self.old self.new }
        ensures history { IsHistory (history_of self.new.reporter.log) }
        ensures newest { IfOk result (λ o. IfSome o (λ version. arc_value version ≡ newest_in self.new.reporter.log)) }
        ensures durable { (newest_in self.new.reporter.log).durable ≡ (newest_in self.old.reporter.log).durable }
        ensures none { IfOk result (λ o. IfNone o (self.new ≡ self.old)) }
        ensures held { self.new.held ≡ self.old.held }
        ensures notes { self.new.notes ≡ self.old.notes }
        ensures same { self.new.reporter.book ≡ self.old.reporter.book }
    {
        let looked = shared.next_version(rt, &mut self.reporter);
        // What the reporter has seen is a history: the clauses rest on that.
        let _ = self.reporter.given();
        looked
    }

    /// Begins the commit of the newest version that was seen. It makes no device call, and reports nothing.
    pub fn begin(&mut self, alloc: Global, version: &Version) -> Result<(), StoreFault>
        requires idle { is_busy self.old.held.flusher.commit.phase ≡ false }
        requires history { IsHistory (history_of self.old.reporter.log) }
        requires newest { version.now ≡ newest (history_of self.old.reporter.log) }
        ensures keeps { Keeps D.Disk self.old.reporter self.old.held.flusher self.new.reporter self.new.held.flusher }
        ensures notes_stay { KeepsNotes D.Disk self.old self.new }
        ensures stored { self.new.held.flusher.commit.root.version ≡ self.old.held.flusher.commit.root.version }
        ensures name { self.new.held.flusher.commit.name ≡ self.old.held.flusher.commit.name }
        ensures reporter { self.new.reporter ≡ self.old.reporter }
        ensures notes { self.new.notes ≡ self.old.notes }
        ensures err { OnErr result (self.new ≡ self.old) }
        ensures errors { IfErr result
            (λ fault. IsReason self.old.held.flusher.commit.phase self.old.held.flusher.commit.root
            (HasNoRoomFor self.old.held.flusher.commit version.now) fault) }
        ensures failed { self.old.held.flusher.commit.phase ≡ phases.Failed → result ≡ Err StoreFault.Failed }
    {
        // The store is of the reporter's book.
        self.held.begin(alloc, &self.reporter, version)
    }

    /// Makes one device call; none where no commit is under way. It reports nothing.
    pub fn step(&mut self) -> Result<Progress, StoreFault>
        ensures keeps { Keeps D.Disk self.old.reporter self.old.held.flusher self.new.reporter self.new.held.flusher }
        ensures notes_stay { KeepsNotes D.Disk self.old self.new }
        ensures stored { self.new.held.flusher.commit.root.version
            ≡ stored_after result self.old.held.flusher.commit.root.version }
        ensures name { self.new.held.flusher.commit.name ≡ self.old.held.flusher.commit.name }
        ensures counted { IfOk result
            (λ p. Counts p (calls_left self.old.held.flusher.commit) (calls_left self.new.held.flusher.commit)) }
        ensures failed { OnErr result (self.new.held.flusher.commit.phase ≡ phases.Failed) }
        // It had failed before, or its device did now.
        ensures cause { D.is_honest self.old.held.flusher.commit.disk → IfErr result (λ fault. (fault ≡ StoreFault.Failed)
            ⊎ ((fault ≡ StoreFault.Device) × Failed (D.faults self.old.held.flusher.commit.disk) (D.faults self.new.held.flusher.commit.disk))) }
        ensures reporter { self.new.reporter ≡ self.old.reporter }
        ensures notes { self.new.notes ≡ self.old.notes }
    {
        // What the reporter has seen is a history: the clauses rest on that.
        let _ = self.reporter.given();
        self.held.step()
    }

    /// Reports what is stored, and writes down what it reports, with the disk's moment. It makes no device call.
    pub fn report<J: BookName, R: Wait + Drop, W: Wait>(
        &mut self,
        rt: &W,
        alloc: Global,
        shared: &Shared<J, R>,
    )
        requires book { self.old.reporter.book ≡ J.book }
        // The store is the book's own.
        requires own { self.old.held.flusher.commit.name ≡ J.store }
        requires stored { J.stored self.old.reporter.log self.old.held.flusher.commit.root.version }
        ensures keeps { Keeps D.Disk self.old.reporter self.old.held.flusher self.new.reporter self.new.held.flusher }
        ensures notes_stay { KeepsNotes D.Disk self.old self.new }
        ensures history { IsHistory (history_of self.new.reporter.log) }
        ensures reported { IsStoreOf D.Disk (history_of self.old.reporter.log) self.old.held.flusher
            → AllReported (history_of self.new.reporter.log) self.new.held.flusher }
        ensures written { notes_in self.new.notes
            ≡ notes_in self.old.notes ++ notes_at (D.moment self.old.held.flusher.commit.disk)
            (news_in (history_of self.old.reporter.log) (history_of self.new.reporter.log)) }
        ensures held { self.new.held ≡ self.old.held }
        ensures same { self.new.reporter.book ≡ self.old.reporter.book }
    {
        let was = Snapshot::of(&self.reporter);
        reports::report(rt, alloc, shared, &mut self.reporter, &self.held.receipt());
        self.notes.write(&was, &self.reporter, &self.held);
        // What the reporter has seen is a history: the clauses rest on that.
        let _ = self.reporter.given();
    }

    /// Reports a fault to the book, and says whether the store can go on after it.
    pub fn report_fault<J: BookName, R: Wait + Drop, W: Wait>(
        &mut self,
        rt: &W,
        shared: &Shared<J, R>,
        fault: StoreFault,
    ) -> bool
        requires book { self.old.reporter.book ≡ J.book }
        requires failed { J.failed self.old.reporter.log (reported_fault_of fault) }
        ensures nothing { self.new ≡ self.old }
        ensures passes { result ≡ passes (reported_fault_of fault) }
    {
        let fault = reports::reported_fault(fault);
        shared.store_failed(rt, &mut self.reporter, fault);
        fault.passes()
    }
}
