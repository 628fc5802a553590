//! What a session submits: a command, which is a batch of one, or a batch.
ghost use Rattle.std.specs.Prelude.{◌≡◌, [], ◌∷◌, map, IfOk, IfErr};
ghost use Rattle.std.specs.Arc.{arc_value};
ghost use Rattle.overlay_terms.specs.Histories.{FollowsBatch};
ghost use Rattle.layer_book.specs.Command.{command};
ghost use Rattle.book_history.specs.Fault.{RefusesBatch, RefusesCommand};

use layer_book::batch::Batch;
use layer_book::batch_fault::BatchFault;
use layer_book::command::Command;
use layer_book::fault::LayerFault;
use std::alloc::{AllocError, Global};
use std::slice;
use std::sync::Arc;
use versions::{Version, VersionFault};

/// Commands that a session submits together: they are accepted as one version, or refused.
pub trait Change {
    ghost use Rattle.overlay_terms.specs.Batches as terms;
    ghost use Rattle.overlay_terms.specs.Histories as versions;

    /// What a version says that refuses them.
    type Fault: Copy;

    /// The commands.
    ghost batch: { Self → terms.Batch };

    /// Why a version refuses them.
    ghost refuses: { Self → versions.Version → Self.Fault → Type 0 };

    /// The commands, in order.
    fn commands(&self) -> &[Command]
        ensures { map command result.now ≡ batch self.now };

    /// The version after them, for as many as ask for it.
    fn version_after(
        &self,
        alloc: Global,
        now: &Version,
    ) -> Result<Arc<Version, Global>, Self::Fault>
        ensures ok { IfOk result (λ v. FollowsBatch now.now (batch self.now) (arc_value v)) }
        ensures refused { IfErr result (refuses self.now now.now) };
}

/// A command is a batch of one.
impl Change for Command {
    type Fault = VersionFault;

    ghost batch = { λ change. command change ∷ [] };

    ghost refuses = { λ change version. RefusesCommand version (command change) };

    fn commands(&self) -> &[Command] {
        slice::from_ref(self)
    }

    fn version_after(
        &self,
        alloc: Global,
        now: &Version,
    ) -> Result<Arc<Version, Global>, VersionFault> {
        let next = now.submit(alloc, self)?;
        match Arc::new(alloc, next) {
            Ok(shared) => Ok(shared),
            Err(_) => Err(VersionFault::Layer(LayerFault::OutOfMemory)),
        }
    }
}

impl Change for Batch {
    type Fault = BatchFault;

    ghost batch = { λ batch. batch };

    ghost refuses = { λ batch version. RefusesBatch version batch };

    fn commands(&self) -> &[Command] {
        Batch::commands(self)
    }

    fn version_after(
        &self,
        alloc: Global,
        now: &Version,
    ) -> Result<Arc<Version, Global>, BatchFault> {
        let next = now.submit_all(alloc, self)?;
        match Arc::new(alloc, next) {
            Ok(shared) => Ok(shared),
            Err(_) => Err(BatchFault::from(AllocError)),
        }
    }
}
