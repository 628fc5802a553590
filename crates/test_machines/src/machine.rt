//! An engine that is asked for plain data.
ghost use Rattle.std.specs.Prelude.{ℕ};

use crate::refused::Refused;
use commit_plan::fault::StoreFault;
use disk_model::disk::Disk;
use disk_model::mem_disk::MemDisk;
use layer_expr::name::Name;
use overlay_engine::engine::Engine;
use overlay_engine::step::{Reply, Step};
use root_store::open_fault::OpenFault;
use root_store::shut::Key;
use std::alloc::{AllocError, Global};
use std::marker::Model;
use version_core::Answers;
use version_core::verifying::Verdict;
use versions::{Version, VersionFault};

/// An engine over a disk, of which a contract sees nothing.
pub struct Machine<D: Disk> {
    engine: Engine<D>,
    key: Key<D>,
}

impl<D: Disk> Model for Machine<D> {
    ghost Value = { ℕ };

    ghost view = { λ _. 0 };
}

// Written out: of a derived drop, each function that owns one proves again what becomes of every part.
impl<D: Disk + Drop> Drop for Machine<D> {
    fn drop(self) {
        let Machine { engine, key } = self;
        drop(engine);
        drop(key);
    }
}

/// The machine of an engine, where there is one.
fn over<D: Disk>(
    key: Key<D>,
    engine: Result<Engine<D>, OpenFault<D>>,
) -> Result<Machine<D>, Refused<D>> {
    match engine {
        Ok(engine) => Ok(Machine { engine, key }),
        Err(OpenFault { fault, disk }) => Err(Refused { fault, disk }),
    }
}

impl<D: Disk> Machine<D> {
    /// A new engine over an empty file of at most so many blocks.
    pub fn create(alloc: Global, disk: D, max_blocks: u32) -> Result<Machine<D>, Refused<D>> {
        let key = Key::of(&disk);
        over(key, Engine::create(alloc, disk, max_blocks))
    }

    /// The engine of a file that is left, which may have so many blocks.
    pub fn recover(alloc: Global, disk: D, max_blocks: u32) -> Result<Machine<D>, Refused<D>> {
        let key = Key::of(&disk);
        over(key, Engine::recover(alloc, disk, max_blocks))
    }

    /// Makes steps, one after the other, and answers each.
    pub fn drive(&mut self, alloc: Global, steps: &[Step]) -> Result<Vec<Reply>, AllocError> {
        self.engine.drive(alloc, steps)
    }

    /// The newest version.
    pub fn version(&self) -> &Version {
        self.engine.version()
    }

    /// Its number.
    pub fn number(&self) -> u64 {
        self.version().number()
    }

    /// The number of the version that was last reported.
    pub fn durable(&self) -> u64 {
        self.version().durable()
    }

    /// How many layers the newest version has.
    pub fn layer_count(&self) -> usize {
        self.version().layers().len()
    }

    /// The layers of the newest version, as a text.
    pub fn listed(&self, alloc: Global) -> Result<Vec<u8>, AllocError> {
        self.version().layers().list(alloc)
    }

    /// The tiles of the newest version that are to be built.
    pub fn pending(&self, alloc: Global) -> Result<Vec<(Name, u8)>, VersionFault> {
        self.version().pending(alloc)
    }

    /// Whether the newest version has the tile of a layer in a column.
    pub fn has_tile(&self, name: &Name, column: u8) -> bool {
        self.version().tile(name, column).is_some()
    }

    /// What a second computation says of that tile.
    pub fn verify(&self, alloc: Global, name: &Name, column: u64) -> Result<Verdict, VersionFault> {
        self.version().verify(alloc, name, column)
    }

    /// The disk, as the device calls have left it.
    pub fn into_disk(self) -> D {
        let Machine { engine, key } = self;
        key.open(engine.into_disk())
    }

    /// The engine, with the key of its disk.
    pub fn into_parts(self) -> (Engine<D>, Key<D>) {
        let Machine { engine, key } = self;
        (engine, key)
    }
}

impl Machine<MemDisk> {
    /// A new engine over an empty file in memory, of at most so many blocks.
    pub fn in_memory(alloc: Global, max_blocks: u32) -> Result<Machine<MemDisk>, StoreFault> {
        let disk = MemDisk::new(alloc, Vec::new(alloc))?;
        Machine::create(alloc, disk, max_blocks).map_err(|refused| refused.fault)
    }
}
