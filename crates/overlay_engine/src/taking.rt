//! Handing out the inputs of tiles.
ghost use Rattle.std.specs.Prelude.{◌≡◌, ◌<◌, true, OnErr, IfOk};
ghost use Rattle.overlay_terms.specs.Commands.{stands_as_derived};
ghost use Rattle.overlay_engine.specs.Steps.{Takes, HoldsJob, StaysEqual, jobs_max};

use crate::engine::{Engine, HeldJob, OUT_OF_MEMORY};
use crate::step::Reply;
use disk_model::disk::Disk;
use layer_expr::name::Name;
use plane_base::Column;
use std::alloc::{AllocError, Global};

impl<D: Disk> Engine<D> {
    /// Hands out the input of a tile that is pending, under the next number.
    pub(crate) fn take(&mut self, alloc: Global, name: &Name, column: u8) -> Reply
        ensures { Takes name.now column self.old result self.new }
    {
        let column = match self
            .version
            .layers()
            .tile_column(name, Column::new(u64::from(column)))
        {
            Ok(column) => column,
            Err(fault) => return Reply::Refused(fault.code()),
        };
        if self.version.shared_tile(name, column).is_some() || self.next_job == u32::MAX {
            return Reply::NoJob;
        }
        match self.hold(alloc, name, column) {
            Ok(number) => Reply::Taken(number),
            Err(_) => Reply::Refused(OUT_OF_MEMORY),
        }
    }

    /// Holds a job more.
    fn hold(&mut self, alloc: Global, name: &Name, column: Column) -> Result<u32, AllocError>
        requires derived { stands_as_derived self.old.version.layers name.now ≡ true }
        requires room { self.old.next_job < jobs_max }
        ensures ok { IfOk result (λ number. HoldsJob name.now column self.old number self.new) }
        ensures err { OnErr result (StaysEqual self.old self.new) }
    {
        let input = self.version.layers().input_in_reach(alloc, name, column)?;
        let number = self.next_job;
        let job = HeldJob {
            number,
            name: name.clone()?,
            input,
        };
        self.jobs.push(job)?;
        self.next_job = number + 1;
        Ok(number)
    }
}
