//! What a command makes of a version.
ghost use Rattle.std.specs.Prelude.{◌≡◌, IfOk, IfErr};
ghost use Rattle.std.specs.Option.{option_map};
ghost use Rattle.overlay_terms.specs.Commands.{refusal_at};
ghost use Rattle.overlay_terms.specs.Histories.{FollowsCommand};
ghost use Rattle.layer_book.specs.Command.{command};
ghost use Rattle.layer_book.specs.Fault.{fault_of, RefusedBy};
ghost use Rattle.versions.specs.Fault as version_fault;

use crate::fault::VersionFault;
use crate::version::{VERSION_MAX, Version};
use layer_book::command::Command;
use layer_book::fault::LayerFault;
use std::alloc::Global;
use std::sync::Arc;

impl Version {
    /// The version after a command: its number is one higher. A refusal for another reason than memory comes before
    /// any memory is taken.
    pub fn submit(&self, alloc: Global, change: &Command) -> Result<Version, VersionFault>
        ensures ok { IfOk result (λ next. FollowsCommand self.now (command change.now) next) }
        ensures refused { IfErr result (RefusedBy (VersionFault.Layer LayerFault.OutOfMemory) (option_map version_fault.version_fault_of (refusal_at self.now.number self.now.layers (command change.now)))) }
    {
        match self.refusal(change) {
            Some(fault) => return Err(VersionFault::Layer(fault)),
            None => {}
        }
        let table = self.table(alloc)?;
        let made = table.after(alloc, change)?;
        let next = Arc::new(alloc, made)?;
        let number = self.number();
        let durable = self.durable();
        Ok(Version::of(number + 1, durable, next))
    }

    /// Why a command is refused: by the layers, else by the limit of 2^62 (error 16).
    fn refusal(&self, change: &Command) -> Option<LayerFault>
        ensures { result ≡ option_map fault_of (refusal_at self.now.number self.now.layers (command change.now)) }
    {
        if let Some(fault) = self.layers().refusal(change) {
            return Some(fault);
        }
        if self.number() == VERSION_MAX {
            return Some(LayerFault::VersionLimit);
        }
        None
    }
}
