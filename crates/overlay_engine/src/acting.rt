//! One step of an engine.
ghost use Rattle.std.specs.Prelude.{ℕ, List};
ghost use Rattle.overlay_terms.specs.Batches.{Batch};
ghost use Rattle.overlay_terms.specs.KeptLaws.{IsExact};
ghost use Rattle.root_store.specs.Running.{KeepsTo};
ghost use Rattle.overlay_engine.specs.Start.{Start};
ghost use Rattle.overlay_engine.specs.Covers.{Covers};
ghost use Rattle.overlay_engine.specs.Committing.{CommitsJust};
ghost use Rattle.overlay_engine.specs.Acts.{Acts, Survives};

use crate::engine::Engine;
use crate::step::{Reply, Step};
use disk_model::disk::Disk;
use std::alloc::Global;

impl<D: Disk> Engine<D> {
    /// Makes one step, and answers it.
    pub fn act(&mut self, alloc: Global, step: &Step) -> Reply
        ensures acts { Acts D.Disk step.now self.old result self.new }
        // Right tiles stay right, whatever the disk does.
        ensures exact { IsExact self.old.version → IsExact self.new.version }
        // The blocks that the file may have stay as many.
        ensures blocks { (limit : ℕ) → KeepsTo limit self.old.flusher.commit → KeepsTo limit self.new.flusher.commit }
        // What is committed is the version with which the commit began, the newest one where none was under way,
        // whichever tiles it has: a crash at any moment of the step leaves what the store held before the commit, or
        // that version, and after Done only that.
        ensures commits { CommitsJust D.Disk self.old result self.new }
        // The store goes on covering the batches, with the one that the step accepted, and a crash at any moment of
        // the step leaves what is no older than what was durable as it began.
        ensures survives { (start : Start) (batches : List Batch) → Covers D.Disk start self.old.flusher self.old.version batches
            → Survives D.Disk start batches step.now self.old result self.new }
    {
        match step {
            Step::Submit(change) => self.submit(alloc, change),
            Step::SubmitAll(batch) => self.submit_all(alloc, batch),
            Step::Take(name, column) => self.take(alloc, name, *column),
            Step::Finish(number) => self.finish(alloc, *number),
            Step::Device => self.device(alloc),
            Step::Report => self.report(alloc),
        }
    }
}
