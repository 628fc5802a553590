//! Commands that are accepted together, or refused together.
ghost use Rattle.std.specs.Prelude.{◌≡◌, ◌↔◌, map, IsOk, IfOk, IfErr};
ghost use Rattle.overlay_terms.specs.Batches.{IsSized};
ghost use Rattle.layer_book.specs.Command.{command};

use crate::command::Command;
use crate::fault::LayerFault;
use std::marker::Model;

/// The most commands of a batch.
pub const BATCH_MAX: usize = 64;

/// At least one command and at most `BATCH_MAX`, in order.
#[derive(Debug, Drop)]
pub struct Batch {
    commands: Vec<Command>,
}

impl Model for Batch {
    ghost use Rattle.std.specs.Prelude.{map};
    ghost use Rattle.std.specs.Coded.{coded_list};
    ghost use Rattle.overlay_terms.specs.Batches as terms;
    ghost use Rattle.overlay_terms.specs.CommandCode.{command_code};

    ghost Value = { terms.Batch };

    ghost coded = { coded_list command_code };

    ghost use Rattle.layer_book.specs.Command.{command};
    ghost use Rattle.overlay_terms.specs.Batches.{IsSized};

    ghost view = { λ b. map command b.commands.items };

    ghost invariant = { λ b. IsSized (map command b.commands.items) };
}

impl Batch {
    /// These commands as a batch, if they are neither none nor too many.
    pub fn new(commands: Vec<Command>) -> Result<Batch, LayerFault>
        ensures accepted { IsOk result ↔ IsSized (map command commands.items) }
        ensures ok { IfOk result (λ batch. batch ≡ map command commands.items) }
        ensures err { IfErr result (λ fault. fault ≡ LayerFault.BatchSize) }
    {
        if commands.is_empty() || commands.len() > BATCH_MAX {
            return Err(LayerFault::BatchSize);
        }
        Ok(Batch { commands })
    }

    pub fn commands(&self) -> &[Command]
        ensures value { map command result.now ≡ self.now }
        ensures sized { IsSized self.now }
    {
        &self.commands
    }
}
