//! The blocks that a root takes.
ghost use Rattle.std.specs.Prelude.{◌≡◌, ◌⊎◌, ◌^◌, ◌<◌, ◌∷◌, List, IsOk, IfOk, IfErr, IsErrOf};
ghost use Rattle.extent_map.specs.declared.extent.Extent as runs;
ghost use Rattle.extent_map.specs.Extents.{AreApart, AreAlike};
ghost use Rattle.extent_map.specs.Blocks.{blocks};
ghost use Rattle.extent_map.specs.FirstFit.{IsFirstFit, NoFit};
ghost use Rattle.extent_map.specs.Taken.{taken_of, limit_of};

use crate::fault::StoreFault;
use extent_map::extent::Extent;
use extent_map::extents::Extents;
use extent_map::fault::ExtentFault;
use std::alloc::{AllocError, Global};

/// The blocks that are taken, of a file that may have so many.
#[derive(Debug, Drop)]
pub struct Room {
    pub(crate) map: Extents,
    pub(crate) max_blocks: u32,
    ghost limit: { limit_of map ≡ max_blocks },
    ghost low: { max_blocks < 2 ^ 32 },
}

impl Room {
    /// The room in a file of at most so many blocks in which these runs are taken.
    pub fn of(alloc: Global, runs: &[Extent], max_blocks: u32) -> Result<Room, ExtentFault>
        ensures apart { IsOk result → AreApart runs.now }
        ensures taken { IfOk result (λ room. AreAlike runs.now (taken_of room.map)) }
        ensures limit { IfOk result (λ room. limit_of room.map ≡ max_blocks) }
        ensures overlap { IsErrOf result ExtentFault.Overlap → AreApart runs.now → ⊥ }
        ensures never { IsErrOf result ExtentFault.Full → ⊥ }
    {
        let map = Extents::of(alloc, runs, u64::from(max_blocks))?;
        Ok(Room { map, max_blocks })
    }

    /// The same room in memory of its own.
    pub(crate) fn try_copy(&self, alloc: Global) -> Result<Room, AllocError>
        ensures taken { IfOk result (λ copy. taken_of copy.map ≡ taken_of self.now.map) }
        ensures limit { IfOk result (λ copy. copy.max_blocks ≡ self.now.max_blocks) }
    {
        let map = self.map.try_copy(alloc)?;
        Ok(Room {
            map,
            max_blocks: self.max_blocks,
        })
    }

    /// The lowest run that is free for so many bytes; without one, error 31. It is taken from then on.
    pub(crate) fn place(&mut self, size: u32) -> Result<Extent, StoreFault>
        ensures size { IfOk result (λ run. run.blocks ≡ blocks size) }
        ensures fit { IfOk result
            (λ run. IsFirstFit (taken_of self.old.map) self.old.max_blocks (blocks size) run.block) }
        ensures low { IfOk result (λ run. run.block < 2 ^ 32) }
        ensures taken { (given : List runs.Extent) → AreAlike given (taken_of self.old.map)
            → IfOk result (λ run. AreAlike (run ∷ given) (taken_of self.new.map)) }
        ensures limit { self.new.max_blocks ≡ self.old.max_blocks }
        ensures full { IsErrOf result StoreFault.Full
            → NoFit (taken_of self.old.map) self.old.max_blocks (blocks size) }
        ensures unchanged { IfErr result (λ _. taken_of self.new.map ≡ taken_of self.old.map) }
        ensures err { IfErr result (λ fault. (fault ≡ StoreFault.Full) ⊎ (fault ≡ StoreFault.OutOfMemory)) }
    {
        match self.map.place(size) {
            Ok(run) => Ok(run),
            Err(ExtentFault::Full) => Err(StoreFault::Full),
            Err(ExtentFault::OutOfMemory) => Err(StoreFault::OutOfMemory),
            Err(ExtentFault::Overlap) => unreachable!(),
        }
    }
}
