//! Device calls.
ghost use Rattle.std.specs.Prelude.{◌≡◌, ℕ, true, List};
ghost use Rattle.disk_model.specs.Moments.{Leaves};
ghost use Rattle.overlay_terms.specs.Batches.{Batch};
ghost use Rattle.overlay_terms.specs.Histories.{Version};
ghost use Rattle.commit_plan.specs.Kept.{Kept};
ghost use Rattle.root_store.specs.Running.{KeepsTo, is_busy};
ghost use Rattle.overlay_engine.specs.Start.{Start};
ghost use Rattle.overlay_engine.specs.Covers.{Covers, CoveredExactly, Moves};
ghost use Rattle.overlay_engine.specs.Committing.{Commits, CarriesOn};
ghost use Rattle.overlay_engine.specs.Steps.{IfDone};
ghost use Rattle.overlay_engine.specs.Devices.{Calls};

use crate::engine::Engine;
use crate::step::Reply;
use disk_model::disk::Disk;
use root_store::phase::Progress;

impl<D: Disk> Engine<D> {
    /// Makes one device call of the commit that is under way.
    pub(crate) fn call(&mut self) -> Reply
        requires { is_busy self.old.flusher.commit.phase ≡ true }
        ensures calls { Calls D.Disk self.old result self.new }
        // The blocks that the file may have stay as many.
        ensures blocks { (limit : ℕ) → KeepsTo limit self.old.flusher.commit → KeepsTo limit self.new.flusher.commit }
        // A crash at any moment of the call leaves what is no older than what was durable as it began.
        ensures moves { (start : Start) (batches : List Batch) → Covers D.Disk start self.old.flusher self.old.version batches
            → Moves D.Disk start self.old.flusher self.new.flusher self.old.version batches }
        // What is committed is the version with which the commit began.
        ensures commits { (x : Kept) (version : Version) → Commits D.Disk self.old.flusher x version
            → CarriesOn D.Disk x version self.old.flusher result self.new.flusher }
        // After the last call a crash leaves what the commit began with, and nothing older.
        ensures done { (start : Start) (batches : List Batch) → Covers D.Disk start self.old.flusher self.old.version batches
            → IfDone result (λ number. Leaves D.Disk self.new.flusher.commit.disk (CoveredExactly start number batches)) }
    {
        match self.flusher.step() {
            Ok(Progress::Done(number)) => Reply::Done(number),
            Ok(Progress::Going) => Reply::Going,
            Ok(Progress::Idle) => unreachable!(),
            Err(fault) => Reply::Refused(fault.code()),
        }
    }
}
