//! A store as its keeper holds it: none of its calls waits, and its keeper gets no flusher and no open disk of it.
ghost use Rattle.std.specs.Prelude.{◌≡◌, ◌⊎◌, false, Err, Some, IfErr, IfOk, IsTrue, OnErr};
ghost use Rattle.overlay_terms.specs.Histories.{History, IsHistory, newest};
ghost use Rattle.disk_model.specs.Disk.{Failed};
ghost use Rattle.root_store.specs.Beginning.{IsReason};
ghost use Rattle.root_store.specs.Running.{Counts, calls_left, is_busy};
ghost use Rattle.root_store.specs.declared.phase.Phase.TheVariants as phases;
ghost use Rattle.flush_core.specs.Stored.{HasNoRoomFor, stored_after};
ghost use Rattle.book_history.specs.Logs.{history_of, newest_in};
ghost use Rattle.commit_plan.specs.Live.{live_content};
ghost use Rattle.commit_plan.specs.RecordPlaces.{AreKnown};
ghost use Rattle.kept_store.specs.Since.{IsRemembered};
ghost use Rattle.kept_store.specs.Storing.{IsStoreOf, Keeps, KeepsReported};
ghost use Rattle.kept_store.specs.Unstored.{IsReasonGiven};

use crate::left::{StoreLeft, left_of};
use crate::opened::ShutStore;
use crate::version_mark::VersionMark;
use commit_plan::fault::StoreFault;
use disk_model::disk::Disk;
use flush_core::flusher::Flusher;
use root_store::phase::Progress;
use root_store::shut::Shut;
use std::alloc::Global;
use store_receipt::receipt::Receipt;
use version_book::reporter::Reporter;
use version_book::seen_log::SeenLog;
use versions::Version;

/// A store of the versions of one book. Who has it can begin the commit of the newest version that the book's reporter
/// has seen, and make the device calls of that. Its keeper can have no more of it than the disk, shut, or the store, shut:
/// so no code above this crate has another way to the store, whether it returns or not.
#[derive(Drop)]
pub struct HeldStore<D: Disk> {
    flusher: Flusher<D>,
    /// What the book's reporter had seen at first: it says which book it is.
    seen_log: SeenLog,
    /// The version that the live root holds, once a commit is done.
    live: Option<VersionMark>,
    /// The version whose commit is under way.
    next: Option<VersionMark>,
    ghost live_tiles: { ∥ IsRemembered seen_log.book (live_content flusher.commit.live) live ∥₁ },
    ghost next_tiles: { ∥ IsRemembered seen_log.book (live_content flusher.commit.next_live) next ∥₁ },
}

impl<D: Disk> HeldStore<D> {
    /// The store of a reporter's book.
    pub fn of(reporter: &Reporter, store: ShutStore<D>) -> HeldStore<D>
        requires book { reporter.now.book ≡ store.seen_log.book }
        ensures flusher { result.flusher ≡ store.flusher }
        ensures book { result.seen_log.book ≡ reporter.now.book }
    {
        // The clauses alone ask for the reporter.
        let _ = reporter;
        let (flusher, seen_log) = store.into_parts();
        HeldStore {
            flusher,
            seen_log,
            live: None,
            next: None,
        }
    }

    /// Whether a commit is under way.
    pub fn busy(&self) -> bool
        ensures { result ≡ is_busy self.now.flusher.commit.phase }
    {
        self.flusher.busy()
    }

    /// The number of the version that is stored.
    pub fn stored(&self) -> u64
        ensures { result ≡ self.now.flusher.commit.root.version }
    {
        self.flusher.stored()
    }

    /// That this store holds the version that is stored.
    pub fn receipt(&self) -> Receipt
        ensures store { result.store ≡ self.now.flusher.commit.name }
        ensures number { result.number ≡ self.now.flusher.commit.root.version }
    {
        self.flusher.receipt()
    }

    /// Begins the commit of the newest version that the reporter of its own book has seen: of no other version, and for
    /// no other book. It makes no device call. Its tiles are compared with those of the live root, unless they are known
    /// to be these.
    pub fn begin(
        &mut self,
        alloc: Global,
        reporter: &Reporter,
        version: &Version,
    ) -> Result<(), StoreFault>
        requires book { reporter.now.book ≡ self.old.seen_log.book }
        requires history { IsHistory (history_of reporter.now.log) }
        requires newest { version.now ≡ newest (history_of reporter.now.log) }
        requires idle { is_busy self.old.flusher.commit.phase ≡ false }
        ensures keeps { Keeps D.Disk reporter.now self.old.flusher reporter.now self.new.flusher }
        ensures stored { self.new.flusher.commit.root.version ≡ self.old.flusher.commit.root.version }
        ensures name { self.new.flusher.commit.name ≡ self.old.flusher.commit.name }
        ensures same { self.new.seen_log ≡ self.old.seen_log }
        ensures err { OnErr result (self.new ≡ self.old) }
        ensures errors { IfErr result
            (λ fault. IsReason self.old.flusher.commit.phase self.old.flusher.commit.root
            (HasNoRoomFor self.old.flusher.commit version.now) fault) }
        ensures failed { self.old.flusher.commit.phase ≡ phases.Failed → result ≡ Err StoreFault.Failed }
    {
        let mark = VersionMark::of(reporter, version);
        let known = self.is_known(&mark);
        match self.flusher.begin_known(alloc, version, known) {
            Ok(()) => {
                self.next = Some(mark);
                Ok(())
            }
            Err(fault) => Err(fault),
        }
    }

    /// Whether it is known that each tile of a version is the live root's.
    fn is_known(&self, version: &VersionMark) -> bool
        requires { version.now.book ≡ self.now.seen_log.book }
        ensures { IsTrue result → AreKnown (live_content self.now.flusher.commit.live)
            (newest_in version.now.log).tiles }
    {
        match &self.live {
            Some(live) => live.has_tiles_of(version),
            None => false,
        }
    }

    /// Makes one device call; none where no commit is under way. It stays a store of whichever history it is one of.
    pub fn step(&mut self) -> Result<Progress, StoreFault>
        ensures keeps { (history : History) → IsHistory history → IsStoreOf D.Disk history self.old.flusher
            → KeepsReported D.Disk history self.old.flusher history self.new.flusher }
        ensures stored { self.new.flusher.commit.root.version
            ≡ stored_after result self.old.flusher.commit.root.version }
        // It stays the store that it is.
        ensures name { self.new.flusher.commit.name ≡ self.old.flusher.commit.name }
        ensures counted { IfOk result
            (λ p. Counts p (calls_left self.old.flusher.commit) (calls_left self.new.flusher.commit)) }
        ensures failed { OnErr result (self.new.flusher.commit.phase ≡ phases.Failed) }
        // It had failed before, or its device did now.
        ensures cause { D.is_honest self.old.flusher.commit.disk → IfErr result (λ fault. (fault ≡ StoreFault.Failed)
            ⊎ ((fault ≡ StoreFault.Device) × Failed (D.faults self.old.flusher.commit.disk) (D.faults self.new.flusher.commit.disk))) }
        ensures same { self.new.seen_log ≡ self.old.seen_log }
    {
        let stepped = self.flusher.step();
        if matches!(stepped, Ok(Progress::Done(_))) {
            self.live = self.next.take();
        }
        stepped
    }

    /// Gives the store up as its book ends with a version. The disk is shut.
    pub fn end(self, alloc: Global, version: &Version) -> StoreLeft<D>
        ensures stored { result.stored ≡ self.flusher.commit.root.version }
        ensures disk { result.disk ≡ Some self.flusher.commit.disk }
        ensures fault { IsReasonGiven result.fault self.flusher version.now }
    {
        left_of(alloc, Some(self.into_flusher()), version)
    }

    /// Gives the store up. The disk is shut.
    pub fn into_disk(self) -> Option<Shut<D>>
        ensures { result ≡ Some self.flusher.commit.disk }
    {
        Some(self.into_flusher().into_disk())
    }

    /// The store, shut.
    pub fn into_store(self) -> ShutStore<D>
        ensures flusher { result.flusher ≡ self.flusher }
        ensures book { result.seen_log.book ≡ self.seen_log.book }
    {
        let HeldStore {
            flusher,
            seen_log,
            live: _,
            next: _,
        } = self;
        ShutStore::of(flusher, seen_log)
    }

    /// The store by value: for the ends above.
    fn into_flusher(self) -> Flusher<D>
        ensures { result ≡ self.flusher }
    {
        let HeldStore {
            flusher,
            seen_log: _,
            live: _,
            next: _,
        } = self;
        flusher
    }
}
