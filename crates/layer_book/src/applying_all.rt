//! What a batch makes of the layers.
ghost use Rattle.std.specs.Prelude.{◌≡◌, map, None, IfOk, IfErr};
ghost use Rattle.std.specs.Option.{option_map};
ghost use Rattle.overlay_terms.specs.Commands.{AllAccepted};
ghost use Rattle.overlay_terms.specs.Batches.{applied_all, refusal_from};
ghost use Rattle.layer_book.specs.Command.{command};
ghost use Rattle.layer_book.specs.BatchFault.{RefusedAllBy, batch_fault_of};

use crate::batch::Batch;
use crate::batch_fault::BatchFault;
use crate::command::Command;
use crate::layers::Layers;
use crate::sketch::Sketch;
use std::alloc::{AllocError, Global};

impl Layers {
    /// The layers after a batch. A refusal is that of the first command that is refused after those before it, and
    /// comes before any memory is taken.
    pub fn apply_all(&self, alloc: Global, batch: &Batch) -> Result<Layers, BatchFault>
        ensures accepted { IfOk result (λ _. refusal_from 0 self.now batch.now ≡ None) }
        ensures ok { IfOk result (λ layers. layers ≡ applied_all self.now batch.now) }
        ensures refused { IfErr result (RefusedAllBy (refusal_from 0 self.now batch.now)) }
        ensures memory_last { result ≡ Err (BatchFault.Whole 40) → refusal_from 0 self.now batch.now ≡ None }
    {
        let commands = batch.commands();
        if let Some(fault) = self.refusal_of_all(batch) {
            return Err(fault);
        }
        Ok(self.applied_all(alloc, commands)?)
    }

    /// The layers after commands that are accepted one after another.
    pub(crate) fn applied_all(
        &self,
        alloc: Global,
        commands: &[Command],
    ) -> Result<Layers, AllocError>
        requires { AllAccepted self.now (map command commands.now) }
        ensures { IfOk result (λ layers. layers ≡ applied_all self.now (map command commands.now)) }
    {
        let mut layers = self.try_copy(alloc)?;
        for change in commands {
            layers = layers.applied(alloc, change)?;
        }
        Ok(layers)
    }

    /// Why a batch is refused: the first of its commands that is, and for what. It takes no memory.
    pub fn refusal_of_all(&self, batch: &Batch) -> Option<BatchFault>
        ensures { result ≡ option_map batch_fault_of (refusal_from 0 self.now batch.now) }
    {
        let commands = batch.commands();
        let mut sketch = Sketch::of(self);
        let mut place = 0;
        for change in commands {
            if let Some(fault) = sketch.refusal(change) {
                return Some(BatchFault::At(place, fault.code()));
            }
            sketch = sketch.after(change);
            place += 1;
        }
        None
    }
}
