//! The room that the records of a root take.
ghost use Rattle.std.specs.Prelude.{IfOk};
ghost use Rattle.extent_map.specs.Taken.{taken_of};
ghost use Rattle.store_terms.specs.Listing.{entries_of};
ghost use Rattle.store_terms.specs.Places.{extents_listed};
ghost use Rattle.commit_plan.specs.TakenRoom.{TakesRoom};
ghost use Rattle.commit_plan.specs.Staying.{AreHeldApart};

use crate::room::Room;
use extent_map::fault::ExtentFault;
use root_reading::load_fault::LoadFault;
use root_reading::root_runs::runs_of;
use std::alloc::Global;
use store_terms::catalog::Listed;
use store_terms::damage::Damage;
use store_terms::root::RecordExtent;

/// The room that a catalog and the records that it lists take, if no two have a block in common.
pub(crate) fn room_of(
    alloc: Global,
    catalog: RecordExtent,
    listing: &[Listed],
    max_blocks: u32,
) -> Result<Room, LoadFault>
    ensures room { TakesRoom (λ room. room) catalog (entries_of listing.now) max_blocks result }
    // No two of the records that are listed have a block in common, but for those that no file has; and what is free in
    // the room is free of each.
    ensures apart { IfOk result (λ room. AreHeldApart (extents_listed (entries_of listing.now)) (taken_of room.map)) }
{
    let runs = runs_of(alloc, catalog, listing)?;
    match Room::of(alloc, &runs, max_blocks) {
        Ok(room) => Ok(room),
        Err(ExtentFault::Overlap) => Err(LoadFault::Damaged(Damage::Overlap)),
        Err(_) => Err(LoadFault::OutOfMemory),
    }
}
