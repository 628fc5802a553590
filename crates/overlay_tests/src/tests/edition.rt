//! Versions for the tests: what each holds is hidden from the proofs, so that a function that owns one is proved soon.
ghost use Rattle.std.specs.Prelude.{ℕ};

use crate::tests::testing::{Change, command, input_in, name_of};
use layer_book::batch::Batch;
use layer_book::batch_fault::BatchFault;
use std::alloc::Global;
use std::marker::Model;
use std::process::Abort;
use tile_build::Built;
use versions::{Finish, Version};

/// A version, of which a contract sees nothing.
pub struct Edition {
    version: Version,
}

impl Model for Edition {
    ghost Value = { ℕ };

    ghost view = { λ _. 0 };
}

// Written out: of a derived drop, each function that owns one proves again what becomes of every part.
impl Drop for Edition {
    fn drop(self) {
        let Edition { version } = self;
        drop(version);
    }
}

impl Edition {
    pub fn new(version: Version) -> Edition {
        Edition { version }
    }

    /// The version after these changes, one after another.
    pub fn after_all(rt: &impl Abort, alloc: Global, changes: &[Change]) -> Edition {
        let mut edition = Edition::new(Version::empty(alloc));
        for change in changes {
            edition = edition.after(rt, alloc, change);
        }
        edition
    }

    /// The version after a change.
    pub fn after(&self, rt: &impl Abort, alloc: Global, change: &Change) -> Edition {
        let change = command(rt, alloc, change);
        Edition::new(self.version.submit(alloc, &change).expect(rt, "accepted"))
    }

    /// The version after a batch.
    pub fn submit_all(&self, alloc: Global, batch: &Batch) -> Result<Edition, BatchFault> {
        match self.version.submit_all(alloc, batch) {
            Ok(next) => Ok(Edition::new(next)),
            Err(fault) => Err(fault),
        }
    }

    pub fn version(&self) -> &Version {
        &self.version
    }

    /// The tile of a layer in a column, from the present layers.
    pub fn built(&self, rt: &impl Abort, alloc: Global, name: &str, column: u8) -> Built {
        let input = input_in(rt, alloc, self.version.layers(), name, column);
        Built::new(alloc, input).expect(rt, "memory")
    }

    /// The version that keeps a tile of a layer, if the tile is not stale.
    pub fn finish(
        &self,
        rt: &impl Abort,
        alloc: Global,
        name: &str,
        tile: Built,
    ) -> Option<Edition> {
        let name = name_of(rt, alloc, name);
        match self.version.finish(alloc, &name, tile).expect(rt, "memory") {
            Finish::Kept(next) => Some(Edition::new(next)),
            Finish::Stale => None,
        }
    }

    /// The same of a tile that the caller has.
    pub fn finish_with(
        &self,
        rt: &impl Abort,
        alloc: Global,
        name: &str,
        tile: &Built,
    ) -> Option<Edition> {
        let name = name_of(rt, alloc, name);
        match self
            .version
            .finish_with(alloc, &name, tile)
            .expect(rt, "memory")
        {
            Finish::Kept(next) => Some(Edition::new(next)),
            Finish::Stale => None,
        }
    }

    /// The version that keeps the tile of a layer in a column, from the present layers.
    pub fn with_tile(&self, rt: &impl Abort, alloc: Global, name: &str, column: u8) -> Edition {
        let tile = self.built(rt, alloc, name, column);
        self.finish(rt, alloc, name, tile).expect(rt, "kept")
    }

    /// The durable number after a report.
    pub fn durable_to(&self, rt: &impl Abort, alloc: Global, number: u64) -> u64 {
        let reported = self.version.durable_to(alloc, number);
        reported.expect(rt, "memory").durable()
    }

    /// Whether a tile of a layer is finished.
    pub fn has_tile(&self, rt: &impl Abort, alloc: Global, name: &str, column: u8) -> bool {
        self.version
            .tile(&name_of(rt, alloc, name), column)
            .is_some()
    }

    /// Whether all tiles of a layer are finished.
    pub fn is_built(&self, rt: &impl Abort, alloc: Global, name: &str) -> bool {
        self.version.is_built(&name_of(rt, alloc, name))
    }
}
