//! The device step.
ghost use Rattle.std.specs.Prelude.{ℕ, List};
ghost use Rattle.disk_model.specs.Moments.{Leaves};
ghost use Rattle.overlay_terms.specs.Batches.{Batch};
ghost use Rattle.root_store.specs.Running.{KeepsTo};
ghost use Rattle.overlay_engine.specs.Start.{Start};
ghost use Rattle.overlay_engine.specs.Covers.{Covers, CoveredExactly, Moves};
ghost use Rattle.overlay_engine.specs.Committing.{CommitsJust};
ghost use Rattle.overlay_engine.specs.Devices.{Devices};
ghost use Rattle.overlay_engine.specs.Steps.{IfDone};

use crate::engine::Engine;
use crate::step::Reply;
use disk_model::disk::Disk;
use std::alloc::Global;

impl<D: Disk> Engine<D> {
    /// Makes one device call. Where no commit is under way, that of the newest version begins with it; where it can't
    /// begin, no call is made.
    pub(crate) fn device(&mut self, alloc: Global) -> Reply
        ensures device { Devices D.Disk self.old result self.new }
        // The blocks that the file may have stay as many.
        ensures blocks { (limit : ℕ) → KeepsTo limit self.old.flusher.commit → KeepsTo limit self.new.flusher.commit }
        // A crash at any moment of the step leaves what is no older than what was durable as it began.
        ensures moves { (start : Start) (batches : List Batch) → Covers D.Disk start self.old.flusher self.old.version batches
            → Moves D.Disk start self.old.flusher self.new.flusher self.old.version batches }
        // What is committed is the version with which the commit began: the newest one, where none was under way.
        ensures commits { CommitsJust D.Disk self.old result self.new }
        // After the last call a crash leaves what the commit began with, and nothing older.
        ensures done { (start : Start) (batches : List Batch) → Covers D.Disk start self.old.flusher self.old.version batches
            → IfDone result (λ number. Leaves D.Disk self.new.flusher.commit.disk (CoveredExactly start number batches)) }
    {
        if self.flusher.busy() {
            return self.call();
        }
        match self.flusher.begin(alloc, &self.version) {
            Ok(()) => self.call(),
            Err(fault) => Reply::Refused(fault.code()),
        }
    }
}
