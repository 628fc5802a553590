//! Lists of steps.
ghost use Rattle.std.specs.Prelude.{◌≡◌, ℕ, IfOk, OnErr};
ghost use Rattle.overlay_terms.specs.KeptLaws.{IsExact};
ghost use Rattle.root_store.specs.Running.{KeepsTo};
ghost use Rattle.overlay_engine.specs.Runs.{Drives};

use crate::engine::Engine;
use crate::step::{Reply, Step};
use disk_model::disk::Disk;
use std::alloc::{AllocError, Global};

impl<D: Disk> Engine<D> {
    /// Makes steps, one after the other, and answers each. Where there is no memory for the answers, it makes none.
    pub fn drive(&mut self, alloc: Global, steps: &[Step]) -> Result<Vec<Reply>, AllocError>
        // A crash at any moment of each step leaves what is no older than what was durable as that step began.
        ensures drives { IfOk result (λ replies. Drives D.Disk steps.now self.old replies.items self.new) }
        // Right tiles stay right, whatever the disk does.
        ensures exact { IsExact self.old.version → IsExact self.new.version }
        // The blocks that the file may have stay as many.
        ensures blocks { (limit : ℕ) → KeepsTo limit self.old.flusher.commit → KeepsTo limit self.new.flusher.commit }
        ensures err { OnErr result (self.new ≡ self.old) }
    {
        let mut replies = Vec::with_capacity(alloc, steps.len())?;
        for step in steps {
            let reply = self.act(alloc, step);
            match replies.push(reply) {
                Ok(()) => {}
                // There is room for an answer to each step.
                Err(_) => unreachable!(),
            }
        }
        Ok(replies)
    }
}
