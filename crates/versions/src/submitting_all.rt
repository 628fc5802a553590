//! What a batch makes of a version.
ghost use Rattle.std.specs.Prelude.{◌≡◌, None, IfOk, IfErr, map};
ghost use Rattle.std.specs.Option.{option_map};
ghost use Rattle.overlay_terms.specs.Commands.{AllAccepted};
ghost use Rattle.overlay_terms.specs.Layers.{Name};
ghost use Rattle.overlay_terms.specs.Histories.{tile_at, FollowsBatch};
ghost use Rattle.overlay_terms.specs.Batches.{applied_all, batch_refusal_at};
ghost use Rattle.layer_book.specs.Command.{command};
ghost use Rattle.layer_book.specs.BatchFault.{RefusedAllBy, batch_fault_of};
ghost use Rattle.layer_tiles.specs.Table.{laid, tiles_in, IsLaid};
ghost use Rattle.versions.specs.Laid.{left_by_all};

use crate::version::{VERSION_MAX, Version};
use layer_book::batch::Batch;
use layer_book::batch_fault::BatchFault;
use layer_book::command::Command;
use layer_book::fault::LayerFault;
use layer_tiles::Table;
use std::alloc::{AllocError, Global};
use std::sync::Arc;

impl Version {
    /// The version after a batch: its number is one higher, however many commands there are. A refusal for another
    /// reason than memory comes before any memory is taken.
    pub fn submit_all(&self, alloc: Global, batch: &Batch) -> Result<Version, BatchFault>
        ensures ok { IfOk result (λ next. FollowsBatch self.now batch.now next) }
        ensures refused { IfErr result (RefusedAllBy (batch_refusal_at self.now.number self.now.layers batch.now)) }
        ensures memory_last { result ≡ Err (BatchFault.Whole 40) → batch_refusal_at self.now.number self.now.layers batch.now ≡ None }
    {
        if let Some(fault) = self.refusal_of_all(batch) {
            return Err(fault);
        }
        let table = self.table(alloc)?;
        let next = after_all(alloc, table, batch.commands())?;
        let number = self.number();
        let durable = self.durable();
        Ok(Version::of(number + 1, durable, next))
    }

    /// Why a batch is refused: by the layers, else by the limit of 2^62 (error 16).
    fn refusal_of_all(&self, batch: &Batch) -> Option<BatchFault>
        ensures { result ≡ option_map batch_fault_of (batch_refusal_at self.now.number self.now.layers batch.now) }
    {
        if let Some(fault) = self.layers().refusal_of_all(batch) {
            return Some(fault);
        }
        if self.number() == VERSION_MAX {
            return Some(BatchFault::Whole(LayerFault::VersionLimit.code()));
        }
        None
    }
}

/// The table that commands leave, which are accepted one after another.
fn after_all(
    alloc: Global,
    table: Arc<Table>,
    commands: &[Command],
) -> Result<Arc<Table>, AllocError>
    requires accepted { AllAccepted table.value.layers (map command commands.now) }
    requires valid { IsLaid (laid table.value) }
    ensures layers { IfOk result (λ next. next.value.layers ≡ applied_all table.value.layers (map command commands.now)) }
    ensures tiles { IfOk result (λ next. (name : Name) (k : _) → tile_at (tiles_in next.value) name k ≡ left_by_all (laid table.value) (map command commands.now) name k) }
    ensures valid { IfOk result (λ next. IsLaid (laid next.value)) }
{
    let mut now = table;
    for change in commands {
        let next = now.after(alloc, change)?;
        let shared = Arc::new(alloc, next)?;
        now = shared;
    }
    Ok(now)
}
