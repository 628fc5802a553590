//! Commands, and batches of them.
ghost use Rattle.layer_book.specs.Command.{command};
ghost use Rattle.overlay_engine.specs.Steps.{Submits, SubmitsBatch};

use crate::engine::Engine;
use crate::step::Reply;
use disk_model::disk::Disk;
use layer_book::batch::Batch;
use layer_book::batch_fault::BatchFault;
use layer_book::command::Command;
use std::alloc::Global;

impl<D: Disk> Engine<D> {
    /// Makes a command, or gives the first reason why it is refused.
    pub(crate) fn submit(&mut self, alloc: Global, change: &Command) -> Reply
        ensures { Submits (command change.now) self.old result self.new }
    {
        match self.version.submit(alloc, change) {
            Ok(version) => {
                self.version = version;
                Reply::Accepted(self.version.number())
            }
            Err(fault) => Reply::Refused(fault.code()),
        }
    }

    /// Makes the commands of a batch, or gives the first reason why they are refused.
    pub(crate) fn submit_all(&mut self, alloc: Global, batch: &Batch) -> Reply
        ensures { SubmitsBatch batch.now self.old result self.new }
    {
        match self.version.submit_all(alloc, batch) {
            Ok(version) => {
                self.version = version;
                Reply::Accepted(self.version.number())
            }
            Err(BatchFault::At(place, code)) => Reply::RefusedAt(place, code),
            Err(BatchFault::Whole(code)) => Reply::Refused(code),
        }
    }
}
