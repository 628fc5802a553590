//! Reports of what is stored.
ghost use Rattle.overlay_engine.specs.Steps.{Reports};

use crate::engine::{Engine, OUT_OF_MEMORY};
use crate::step::Reply;
use disk_model::disk::Disk;
use std::alloc::Global;

impl<D: Disk> Engine<D> {
    /// Reports the version that is stored, and all before it, as durable.
    pub(crate) fn report(&mut self, alloc: Global) -> Reply
        ensures { Reports self.old result self.new }
    {
        match self.version.durable_to(alloc, self.flusher.stored()) {
            Ok(version) => {
                self.version = version;
                Reply::Durable(self.version.durable())
            }
            Err(_) => Reply::Refused(OUT_OF_MEMORY),
        }
    }
}
