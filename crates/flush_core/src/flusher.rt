//! A store to which versions are written.
ghost use Rattle.std.specs.Prelude.{◌≡◌, ◌↔◌, ◌<◌, ◌≤◌, ℕ, true, false, Err, IfOk, OnOk, OnErr, IsErrOf, IsTrue, IfErr};
ghost use Rattle.disk_model.specs.Disk.{Failed, CountsCall};
ghost use Rattle.store_terms.specs.Roots.{sequence_max};
ghost use Rattle.root_store.specs.Beginning.{IsReason};
ghost use Rattle.commit_plan.specs.Kept.{Kept};
ghost use Rattle.commit_plan.specs.Live.{live_content};
ghost use Rattle.commit_plan.specs.RecordPlaces.{AreKnown};
ghost use Rattle.root_store.specs.Running.{StoreStandsFor, RunsFrom, KeepsTo, Stepped, FailsByDevice, Counts, Turns};
ghost use Rattle.root_store.specs.Running.{KeepsRoots, TurnsRecords, KeepsRecords, calls_left, is_busy, fault_in};
ghost use Rattle.flush_core.specs.Stored.{stored_after, IsCommitOf, HasRoomFor, HasNoRoomFor, calls_of};

use crate::imaging::image_of;
use commit_plan::fault::StoreFault;
use disk_model::disk::Disk;
use root_store::commit::Commit;
use root_store::phase::{Phase, Progress};
use root_store::shut::Shut;
use std::alloc::Global;
use store_receipt::receipt::Receipt;
use versions::Version;

/// A store to which versions are written.
#[derive(Debug, Drop)]
pub struct Flusher<D: Disk> {
    pub(crate) commit: Commit<D>,
}

impl<D: Disk> Flusher<D> {
    /// A store that was made or opened.
    pub fn new(commit: Commit<D>) -> Flusher<D>
        ensures { result ≡ record { commit = commit } }
    {
        Flusher { commit }
    }

    /// Whether a commit is under way.
    pub fn busy(&self) -> bool
        ensures { result ≡ is_busy self.now.commit.phase }
    {
        self.commit.busy()
    }

    /// The number of the version that is stored: that of the store's live root.
    pub fn stored(&self) -> u64
        ensures { result ≡ self.now.commit.root.version }
    {
        self.commit.version()
    }

    /// That this store holds the version of its live root.
    pub fn receipt(&self) -> Receipt
        ensures store { result.store ≡ self.now.commit.name }
        ensures number { result.number ≡ self.now.commit.root.version }
    {
        self.commit.receipt()
    }

    /// Begins the commit of a version. It makes no device call, and a refusal changes nothing.
    pub fn begin(&mut self, alloc: Global, version: &Version) -> Result<(), StoreFault>
        requires { is_busy self.old.commit.phase ≡ false }
        // From the content that the store holds to just the version's number, layers and finished tiles.
        ensures begun { (x : Kept) → StoreStandsFor D.Disk self.old.commit x
            → OnOk result ((y : Kept) × IsCommitOf version.now y × RunsFrom D.Disk self.new.commit x y) }
        ensures stored { self.new.commit.root.version ≡ self.old.commit.root.version }
        // The root that it leads to has the version's number.
        ensures number { OnOk result (self.new.commit.next_root.version ≡ version.now.number) }
        // One begins only where none is under way, the device did not fail, and there is a number for it.
        ensures idle { OnOk result (self.old.commit.phase ≡ Phase.Idle) }
        ensures below { OnOk result (self.old.commit.root.sequence < sequence_max) }
        ensures begins { OnOk result (self.new.commit.phase ≡ Phase.Close) }
        // The blocks that the file may have stay as many.
        ensures blocks { (limit : ℕ) → KeepsTo limit self.old.commit → KeepsTo limit self.new.commit }
        // So many calls lead to Done.
        ensures calls { OnOk result (calls_left self.new.commit ≡ calls_of self.old.commit version.now) }
        ensures disk { self.new.commit.disk ≡ self.old.commit.disk }
        ensures name { self.new.commit.name ≡ self.old.commit.name }
        ensures err { OnErr result (self.new ≡ self.old) }
        ensures failed { self.old.commit.phase ≡ Phase.Failed → result ≡ Err StoreFault.Failed }
        ensures limit { self.old.commit.phase ≡ Phase.Idle → sequence_max ≤ self.old.commit.root.sequence
            → result ≡ Err StoreFault.SequenceLimit }
        // Where there is room for all its new records among the free blocks, by first fit;
        // where there is none, that is the reason.
        ensures room { OnOk result (HasRoomFor self.old.commit version.now) }
        ensures errors { IfErr result
            (λ fault. IsReason self.old.commit.phase self.old.commit.root
            (HasNoRoomFor self.old.commit version.now) fault) }
    {
        self.begin_known(alloc, version, false)
    }

    /// The same, where the caller says whether each tile of the version is known to be the live root's: then none is
    /// compared, and a commit's time follows what changed.
    pub fn begin_known(
        &mut self,
        alloc: Global,
        version: &Version,
        known: bool,
    ) -> Result<(), StoreFault>
        requires idle { is_busy self.old.commit.phase ≡ false }
        requires known { IsTrue known → AreKnown (live_content self.old.commit.live) version.now.tiles }
        // What the live root holds stays until Done, and the root that it leads to holds the version's tiles.
        ensures records { self.new.commit.live ≡ self.old.commit.live }
        ensures next_tiles { OnOk result ((live_content self.new.commit.next_live).tiles ≡ version.now.tiles) }
        // From the content that the store holds to just the version's number, layers and finished tiles.
        ensures begun { (x : Kept) → StoreStandsFor D.Disk self.old.commit x
            → OnOk result ((y : Kept) × IsCommitOf version.now y × RunsFrom D.Disk self.new.commit x y) }
        ensures stored { self.new.commit.root.version ≡ self.old.commit.root.version }
        // The root that it leads to has the version's number.
        ensures number { OnOk result (self.new.commit.next_root.version ≡ version.now.number) }
        // One begins only where none is under way, the device did not fail, and there is a number for it.
        ensures idle { OnOk result (self.old.commit.phase ≡ Phase.Idle) }
        ensures below { OnOk result (self.old.commit.root.sequence < sequence_max) }
        ensures begins { OnOk result (self.new.commit.phase ≡ Phase.Close) }
        // The blocks that the file may have stay as many.
        ensures blocks { (limit : ℕ) → KeepsTo limit self.old.commit → KeepsTo limit self.new.commit }
        // So many calls lead to Done.
        ensures calls { OnOk result (calls_left self.new.commit ≡ calls_of self.old.commit version.now) }
        ensures disk { self.new.commit.disk ≡ self.old.commit.disk }
        ensures name { self.new.commit.name ≡ self.old.commit.name }
        ensures err { OnErr result (self.new ≡ self.old) }
        ensures failed { self.old.commit.phase ≡ Phase.Failed → result ≡ Err StoreFault.Failed }
        ensures limit { self.old.commit.phase ≡ Phase.Idle → sequence_max ≤ self.old.commit.root.sequence
            → result ≡ Err StoreFault.SequenceLimit }
        // Where there is room for all its new records among the free blocks, by first fit;
        // where there is none, that is the reason.
        ensures room { OnOk result (HasRoomFor self.old.commit version.now) }
        ensures errors { IfErr result
            (λ fault. IsReason self.old.commit.phase self.old.commit.root
            (HasNoRoomFor self.old.commit version.now) fault) }
    {
        // Asked before memory is taken for the image.
        if let Some(fault) = self.commit.refusal() {
            return Err(fault);
        }
        let image = image_of(alloc, version)?;
        self.commit.begin_known(alloc, image, known)
    }

    /// The disk, as the calls have left it, shut.
    pub fn into_disk(self) -> Shut<D>
        ensures { result ≡ self.commit.disk }
    {
        self.commit.into_disk()
    }

    /// Makes one device call; none where no commit is under way.
    pub fn step(&mut self) -> Result<Progress, StoreFault>
        // Where a commit from x to y is under way, a crash at any moment of the call leaves x or y.
        ensures moves { (x y : Kept) → RunsFrom D.Disk self.old.commit x y
            → Stepped D.Disk self.old.commit self.new.commit result x y }
        // Done n: n is the number of the root that the commit leads to, and that root is live. Any other answer leaves
        // the live root and the next one.
        ensures roots { IfOk result (λ p. Turns p self.old.commit self.new.commit) }
        ensures same_roots { OnErr result (KeepsRoots self.old.commit self.new.commit) }
        // So with what the two hold.
        ensures records { IfOk result (λ p. TurnsRecords p self.old.commit self.new.commit) }
        ensures same_records { OnErr result (KeepsRecords self.old.commit self.new.commit) }
        ensures stored { self.new.commit.root.version ≡ stored_after result self.old.commit.root.version }
        ensures honest { D.is_honest self.new.commit.disk ↔ D.is_honest self.old.commit.disk }
        // It stays the store that it is.
        ensures name { self.new.commit.name ≡ self.old.commit.name }
        // The blocks that the file may have stay as many.
        ensures blocks { (limit : ℕ) → KeepsTo limit self.old.commit → KeepsTo limit self.new.commit }
        // One device call fewer is left, until Done.
        ensures counted { IfOk result (λ p. Counts p (calls_left self.old.commit) (calls_left self.new.commit)) }
        ensures idle { self.old.commit.phase ≡ Phase.Idle → (result ≡ Ok Progress.Idle) × (self.new ≡ self.old) }
        ensures stuck { self.old.commit.phase ≡ Phase.Failed
            → (result ≡ Err StoreFault.Failed) × (self.new ≡ self.old) }
        ensures failed { OnErr result (self.new.commit.phase ≡ Phase.Failed) }
        ensures errors { IfErr result (λ fault. fault ≡ fault_in self.old.commit.phase) }
        ensures cause { D.is_honest self.old.commit.disk → IsErrOf result StoreFault.Device
            → Failed (D.faults self.old.commit.disk) (D.faults self.new.commit.disk) }
        // One device call is made where a commit is under way; where none is, nothing changes.
        ensures calls { D.is_honest self.old.commit.disk → is_busy self.old.commit.phase ≡ true
            → CountsCall result (D.calls self.old.commit.disk) (D.calls self.new.commit.disk) }
        // It fails where a device call failed, now or before, and only there.
        ensures by_device { D.is_honest self.old.commit.disk → FailsByDevice D.Disk self.old.commit self.new.commit }
    {
        self.commit.step()
    }
}
