//! The blocks that are taken, and a place for each of some records among those that are free.
ghost use Rattle.std.specs.Prelude.{◌≡◌, ◌≤◌, ◌+◌, ◌∷◌};
ghost use Rattle.std.specs.Prelude.{List, length, take, drop, IsOk, IfOk, IfSome, IfNone, IfErr, IsErrOf, OnErr};
ghost use Rattle.std.specs.List.{AllByRecursion};
ghost use Rattle.extent_map.specs.Extents.{IsUnused, AreApart, AreAlike, Ascend, Ascend-prop, IsGap};
ghost use Rattle.extent_map.specs.Blocks.{blocks};
ghost use Rattle.extent_map.specs.FirstFit.{IsPlanned, IsFull, IsFirstFit, NoFit};

use crate::extent::Extent;
use crate::fault::ExtentFault;
use crate::first_fit::{blocks_of, first_fit};
use std::alloc::{AllocError, Global};

/// Extents that are taken, in ascending order, and the number of blocks that the file may have.
#[derive(Debug, Drop)]
pub struct Extents {
    taken: Vec<Extent>,
    limit: u64,
    ghost ascending: { Ascend taken.items } by { Ascend-prop taken.items },
}

/// How many of the ascending extents come before another. It halves what is left at each look.
fn count_before(taken: &[Extent], extent: &Extent) -> usize
    requires { Ascend taken.now }
    ensures within { result ≤ length taken.now }
    ensures before { AllByRecursion (λ e. e.block + e.blocks ≤ extent.now.block) (take result taken.now) }
    ensures others { AllByRecursion (λ e. e.block + e.blocks ≤ extent.now.block → ⊥) (drop result taken.now) }
{
    let mut low = 0;
    let mut high = taken.len();
    while low < high {
        let middle = low + (high - low) / 2;
        if taken[middle].is_before(extent) {
            low = middle + 1;
        } else {
            high = middle;
        }
    }
    low
}

/// The place of an extent among others, if it has no block in common with them.
fn place_of(taken: &[Extent], extent: &Extent) -> Option<usize>
    requires { Ascend taken.now }
    ensures some { IfSome result (λ place. IsGap taken.now place extent.now.block extent.now.blocks) }
    ensures none { IfNone result (IsUnused taken.now extent.now.block extent.now.blocks → ⊥) }
{
    let place = count_before(taken, extent);
    if place == taken.len() {
        return Some(place);
    }
    let other = taken[place];
    if extent.is_before(&other) {
        return Some(place);
    }
    None
}

/// Puts an extent in its place.
fn put(taken: &mut Vec<Extent>, place: usize, extent: Extent) -> Result<(), ExtentFault>
    requires ascending { Ascend taken.old.items }
    requires gap { IsGap taken.old.items place extent.block extent.blocks }
    ensures ascending { IsOk result → Ascend taken.new.items }
    ensures alike { (given : List Extent) → AreAlike given taken.old.items → IsOk result
        → AreAlike (extent ∷ given) taken.new.items }
    ensures err { IfErr result (λ fault. fault ≡ ExtentFault.OutOfMemory) }
    ensures same { OnErr result (taken.new.items ≡ taken.old.items) }
{
    taken.insert(place, extent)?;
    Ok(())
}

impl Extents {
    ghost use Rattle.extent_map.specs.Taken.{taken_of, limit_of};

    /// The map of a file of at most so many blocks in which these extents are taken.
    pub fn of(alloc: Global, extents: &[Extent], max_blocks: u64) -> Result<Extents, ExtentFault>
        ensures apart { IsOk result → AreApart extents.now }
        ensures taken { IfOk result (λ map. AreAlike extents.now (taken_of map)) }
        ensures limit { IfOk result (λ map. limit_of map ≡ max_blocks) }
        ensures overlap { IsErrOf result ExtentFault.Overlap → AreApart extents.now → ⊥ }
        ensures never { IsErrOf result ExtentFault.Full → ⊥ }
    {
        let mut taken = Vec::new(alloc);
        for extent in extents {
            let Some(place) = place_of(&taken, extent) else {
                return Err(ExtentFault::Overlap);
            };
            put(&mut taken, place, *extent)?;
        }
        Ok(Extents {
            taken,
            limit: max_blocks,
        })
    }

    /// A run for each length of bytes, in order: the lowest that is free of what is taken and of the runs before it.
    pub fn plan(&self, alloc: Global, lengths: &[u32]) -> Result<Vec<Extent>, ExtentFault>
        ensures ok { IfOk result (λ runs. IsPlanned (taken_of self.now) (limit_of self.now) lengths.now runs.items) }
        ensures full { IsErrOf result ExtentFault.Full → IsFull (taken_of self.now) (limit_of self.now) lengths.now }
        ensures never { IsErrOf result ExtentFault.Overlap → ⊥ }
    {
        let mut taken = self.taken.to_vec(alloc)?;
        let mut runs = Vec::new(alloc);
        for length in lengths {
            let need = blocks_of(*length);
            let Some(found) = first_fit(&taken, self.limit, need) else {
                return Err(ExtentFault::Full);
            };
            put(&mut taken, found.place, found.run)?;
            runs.push(found.run)?;
        }
        Ok(runs)
    }

    /// The same map in memory of its own.
    pub fn try_copy(&self, alloc: Global) -> Result<Extents, AllocError>
        ensures taken { IfOk result (λ copy. taken_of copy ≡ taken_of self.now) }
        ensures limit { IfOk result (λ copy. limit_of copy ≡ limit_of self.now) }
    {
        let taken = self.taken.to_vec(alloc)?;
        Ok(Extents {
            taken,
            limit: self.limit,
        })
    }

    /// The lowest run that is free for so many bytes; without one, error 31. It is taken from then on; a refusal changes
    /// nothing.
    pub fn place(&mut self, length: u32) -> Result<Extent, ExtentFault>
        ensures size { IfOk result (λ run. run.blocks ≡ blocks length) }
        ensures fit { IfOk result
            (λ run. IsFirstFit (taken_of self.old) (limit_of self.old) (blocks length) run.block) }
        ensures taken { (given : List Extent) → AreAlike given (taken_of self.old)
            → IfOk result (λ run. AreAlike (run ∷ given) (taken_of self.new)) }
        ensures limit { limit_of self.new ≡ limit_of self.old }
        ensures full { IsErrOf result ExtentFault.Full → NoFit (taken_of self.old) (limit_of self.old) (blocks length) }
        ensures never { IsErrOf result ExtentFault.Overlap → ⊥ }
        ensures err { OnErr result (taken_of self.new ≡ taken_of self.old) }
    {
        let need = blocks_of(length);
        let Some(found) = first_fit(&self.taken, self.limit, need) else {
            return Err(ExtentFault::Full);
        };
        put(&mut self.taken, found.place, found.run)?;
        Ok(found.run)
    }
}
