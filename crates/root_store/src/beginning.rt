//! Beginning a commit.
ghost use Rattle.std.specs.Prelude.{◌≡◌, ◌≢◌, ◌+◌, ◌<◌, ◌≤◌, ℕ};
ghost use Rattle.std.specs.Prelude.{true, false, length, Some, IfErr, IfSome, IfNone, IsTrue, OnOk, OnErr};
ghost use Rattle.extent_map.specs.Taken.{limit_of};
ghost use Rattle.store_terms.specs.Image.{Held};
ghost use Rattle.store_terms.specs.Roots.{sequence_max};
ghost use Rattle.commit_plan.specs.ImageHeld.{image_held};
ghost use Rattle.commit_plan.specs.Kept.{Kept};
ghost use Rattle.root_store.specs.Running.{StoreStandsFor, RunsFrom, LeadsTo, KeepsTo, calls_left, is_busy};
ghost use Rattle.commit_plan.specs.Next.{NextHolds};
ghost use Rattle.commit_plan.specs.Fitting.{HasRoom, HasNoRoom};
ghost use Rattle.commit_plan.specs.Live.{live_content};
ghost use Rattle.commit_plan.specs.RecordPlaces.{AreKnown};
ghost use Rattle.commit_plan.specs.Sizes.{new_records};
ghost use Rattle.root_store.specs.Beginning.{IsRefusal, IsReason, LaysOut};
ghost use Rattle.root_store.specs.Writing.{writes_left};

use crate::commit::Commit;
use crate::phase::Phase;
use crate::slots::other_body;
use commit_plan::fault::StoreFault;
use commit_plan::image::Image;
use commit_plan::next::{Next, drafted};
use disk_model::disk::Disk;
use std::alloc::Global;
use store_terms::layout::NUMBER_MAX;

impl<D: Disk> Commit<D> {
    /// Begins the commit that leads to what comes next. It makes no device call.
    pub(crate) fn start(&mut self, next: Next)
        requires idle { self.old.phase ≡ Phase.Idle }
        requires below { self.old.root.sequence < sequence_max }
        requires follows { (x : Kept) → StoreStandsFor D.Disk self.old x
            → (held : Held) × NextHolds x held next × (held.number ≡ next.root.version) }
        ensures begun { (x : Kept) (held : Held) → StoreStandsFor D.Disk self.old x → x.root.sequence < sequence_max
            → NextHolds x held next → (y : Kept) × (y.held ≡ held) × RunsFrom D.Disk self.new x y }
        ensures disk { self.new.disk ≡ self.old.disk }
        ensures name { self.new.name ≡ self.old.name }
        ensures root { self.new.next_root ≡ next.root }
        ensures plan { self.new.plan.items ≡ next.plan.items }
        ensures left { writes_left self.new ≡ self.new.plan.items }
        ensures next_records { self.new.next_live ≡ next.live }
        ensures live { self.new.root ≡ self.old.root }
        ensures records { self.new.live ≡ self.old.live }
        ensures blocks { (limit : ℕ) → limit_of self.old.live.room.map ≡ limit → limit_of next.live.room.map ≡ limit
            → KeepsTo limit self.new }
        ensures busy { is_busy self.new.phase ≡ true }
        ensures begins { self.new.phase ≡ Phase.Close }
        // One for each write, and five more.
        ensures calls { calls_left self.new ≡ length next.plan.items + 5 }
    {
        self.next_root = next.root;
        self.next_live = next.live;
        self.plan = next.plan;
        self.next = 0;
        self.phase = Phase::Close;
    }

    /// Why no commit can begin, whatever it is to write: the device failed in an earlier call, or there is no number
    /// for the commit.
    pub fn refusal(&self) -> Option<StoreFault>
        ensures failed { self.now.phase ≡ Phase.Failed → result ≡ Some StoreFault.Failed }
        ensures limit { self.now.phase ≡ Phase.Idle → sequence_max ≤ self.now.root.sequence
            → result ≡ Some StoreFault.SequenceLimit }
        ensures reason { IfSome result (λ fault. IsRefusal self.now.phase self.now.root fault) }
        ensures none { IfNone result (self.now.root.sequence < sequence_max) }
        ensures well { IfNone result (self.now.phase ≢ Phase.Failed) }
    {
        if matches!(self.phase, Phase::Failed) {
            return Some(StoreFault::Failed);
        }
        if self.root.sequence >= NUMBER_MAX {
            return Some(StoreFault::SequenceLimit);
        }
        None
    }

    /// Begins the commit of an image. It makes no device call, and a refusal changes nothing.
    pub fn begin(&mut self, alloc: Global, image: Image) -> Result<(), StoreFault>
        requires { is_busy self.old.phase ≡ false }
        // From the content that the store holds to that of the image.
        ensures begun { (x : Kept) → StoreStandsFor D.Disk self.old x
            → OnOk result ((y : Kept) × (y.held ≡ image_held image) × RunsFrom D.Disk self.new x y) }
        // On an honest disk, with no premise: from the content of the live root to just the image.
        ensures leads { D.is_honest self.old.disk → OnOk result
            (LeadsTo D.Disk self.old self.new (image_held image)) }
        // One begins only where none is under way, the device did not fail, and there is a number for it.
        ensures idle { OnOk result (self.old.phase ≡ Phase.Idle) }
        ensures below { OnOk result (self.old.root.sequence < sequence_max) }
        // The live root stays until Done.
        ensures root { self.new.root ≡ self.old.root }
        // The root that it leads to has the image's number, and the first call shuts the other slot's gate.
        ensures number { OnOk result (self.new.next_root.version ≡ image.number) }
        ensures begins { OnOk result (self.new.phase ≡ Phase.Close) }
        ensures busy { OnOk result (is_busy self.new.phase ≡ true) }
        // The new records, the catalog and the body, in this order; each record and the catalog in the
        // lowest run of free blocks, in whole blocks.
        ensures laid { OnOk result (LaysOut self.old image self.new) }
        // None of them is made.
        ensures left { OnOk result (writes_left self.new ≡ self.new.plan.items) }
        // One for each new record and the catalog, and six more.
        ensures calls { OnOk result
            (calls_left self.new ≡ new_records (live_content self.old.live) (image_held image) + 7) }
        ensures disk { self.new.disk ≡ self.old.disk }
        ensures name { self.new.name ≡ self.old.name }
        // The blocks that the file may have stay as many.
        ensures blocks { (limit : ℕ) → KeepsTo limit self.old → KeepsTo limit self.new }
        ensures err { OnErr result (self.new ≡ self.old) }
        ensures failed { self.old.phase ≡ Phase.Failed → result ≡ Err StoreFault.Failed }
        ensures limit { self.old.phase ≡ Phase.Idle → sequence_max ≤ self.old.root.sequence
            → result ≡ Err StoreFault.SequenceLimit }
        // Where there is room for all new records of just this image among the free blocks, by first fit;
        // where there is none, that is the reason.
        ensures room { OnOk result (HasRoom self.old.live image) }
        ensures errors { IfErr result
            (λ fault. IsReason self.old.phase self.old.root (HasNoRoom self.old.live image) fault) }
    {
        self.begin_known(alloc, image, false)
    }

    /// The same, where the caller says whether each tile of the image is known to be the live root's: then none is
    /// compared, and a commit's time follows what changed.
    pub fn begin_known(
        &mut self,
        alloc: Global,
        image: Image,
        known: bool,
    ) -> Result<(), StoreFault>
        requires idle { is_busy self.old.phase ≡ false }
        requires known { IsTrue known → AreKnown (live_content self.old.live) (image_held image).tiles }
        // What the live root holds stays until Done, and the root that it leads to holds the image's tiles.
        ensures records { self.new.live ≡ self.old.live }
        ensures next_tiles { OnOk result ((live_content self.new.next_live).tiles ≡ (image_held image).tiles) }
        // From the content that the store holds to that of the image.
        ensures begun { (x : Kept) → StoreStandsFor D.Disk self.old x
            → OnOk result ((y : Kept) × (y.held ≡ image_held image) × RunsFrom D.Disk self.new x y) }
        // On an honest disk, with no premise: from the content of the live root to just the image.
        ensures leads { D.is_honest self.old.disk → OnOk result
            (LeadsTo D.Disk self.old self.new (image_held image)) }
        // One begins only where none is under way, the device did not fail, and there is a number for it.
        ensures idle { OnOk result (self.old.phase ≡ Phase.Idle) }
        ensures below { OnOk result (self.old.root.sequence < sequence_max) }
        // The live root stays until Done.
        ensures root { self.new.root ≡ self.old.root }
        // The root that it leads to has the image's number, and the first call shuts the other slot's gate.
        ensures number { OnOk result (self.new.next_root.version ≡ image.number) }
        ensures begins { OnOk result (self.new.phase ≡ Phase.Close) }
        ensures busy { OnOk result (is_busy self.new.phase ≡ true) }
        // The new records, the catalog and the body, in this order; each record and the catalog in the
        // lowest run of free blocks, in whole blocks.
        ensures laid { OnOk result (LaysOut self.old image self.new) }
        // None of them is made.
        ensures left { OnOk result (writes_left self.new ≡ self.new.plan.items) }
        // One for each new record and the catalog, and six more.
        ensures calls { OnOk result
            (calls_left self.new ≡ new_records (live_content self.old.live) (image_held image) + 7) }
        ensures disk { self.new.disk ≡ self.old.disk }
        ensures name { self.new.name ≡ self.old.name }
        // The blocks that the file may have stay as many.
        ensures blocks { (limit : ℕ) → KeepsTo limit self.old → KeepsTo limit self.new }
        ensures err { OnErr result (self.new ≡ self.old) }
        ensures failed { self.old.phase ≡ Phase.Failed → result ≡ Err StoreFault.Failed }
        ensures limit { self.old.phase ≡ Phase.Idle → sequence_max ≤ self.old.root.sequence
            → result ≡ Err StoreFault.SequenceLimit }
        // Where there is room for all new records of just this image among the free blocks, by first fit;
        // where there is none, that is the reason.
        ensures room { OnOk result (HasRoom self.old.live image) }
        ensures errors { IfErr result
            (λ fault. IsReason self.old.phase self.old.root (HasNoRoom self.old.live image) fault) }
    {
        if let Some(fault) = self.refusal() {
            return Err(fault);
        }
        let body = other_body(self.root);
        let next = drafted(alloc, image, &self.live, self.root, body, known)?;
        self.start(next);
        Ok(())
    }
}
