//! What a root of a file holds, and the blocks that it takes.
ghost use Rattle.std.specs.Prelude.{◌≡◌, ◌↔◌, ◌^◌, ◌<◌, length, Ok, IfOk, IfErr};
ghost use Rattle.overlay_terms.specs.StoredTiles.{AreStored};
ghost use Rattle.extent_map.specs.Taken.{taken_of, limit_of};
ghost use Rattle.layer_tiles.specs.Table.{tiles_in};
ghost use Rattle.store_terms.specs.Image.{held_of};
ghost use Rattle.store_terms.specs.Image as terms;
ghost use Rattle.root_reading.specs.RootRuns.{IsMapOf};
ghost use Rattle.root_reading.specs.Looking.{Gives, Looks, Causes};
ghost use Rattle.commit_plan.specs.Loaded.{held_in, kept_in};
ghost use Rattle.commit_plan.specs.Staying.{kept_content};
ghost use Rattle.commit_plan.specs.Live.{live_content};
ghost use Rattle.commit_plan.specs.Kept.{extents_in};

use crate::live_records::LiveRecords;
use crate::room::Room;
use disk_model::disk::Disk;
use layer_tiles::Table;
use root_reading::contents::content_of;
use root_reading::load_fault::LoadFault;
use root_reading::records::listing_at;
use std::alloc::Global;
use std::sync::Arc;
use store_terms::root::Root;

/// What is read of a file: its root, what the root holds, and the blocks that it takes.
#[derive(Debug, Drop)]
pub struct Loaded {
    pub root: Root,
    /// What it holds, for the version that is opened.
    pub content: Arc<Table>,
    /// The same, which it shares, and where it lies, for the store.
    pub live: LiveRecords,
    /// Records of nothing, in whose place those of the commit to come are put.
    pub next_live: LiveRecords,
}

/// The room in which nothing is taken.
fn no_room(alloc: Global, max_blocks: u32) -> Result<Room, LoadFault>
    ensures limit { IfOk result (λ room. limit_of room.map ≡ max_blocks) }
    ensures err { IfErr result (λ e. e ≡ LoadFault.OutOfMemory) }
{
    match Room::of(alloc, &[], max_blocks) {
        Ok(room) => Ok(room),
        Err(_) => Err(LoadFault::OutOfMemory),
    }
}

/// What a root of a file of this size holds, and the blocks that it takes.
pub fn read_root<D: Disk>(
    alloc: Global,
    disk: &mut D,
    size: usize,
    root: Root,
    max_blocks: u32,
) -> Result<Loaded, LoadFault>
    requires { D.is_honest disk.old → size ≡ length (D.seen disk.old) }
    ensures honest { D.is_honest disk.new ↔ D.is_honest disk.old }
    ensures looks { D.is_honest disk.old → Looks D.Disk disk.old disk.new }
    ensures gives { D.is_honest disk.old → length (D.seen disk.old) < 2 ^ 64
        → Gives held_in result (held_of (D.seen disk.old) root) }
    ensures listing { D.is_honest disk.old
        → IfOk result (λ x. terms.listing_of (D.seen disk.old) root ≡ Ok (kept_in x).listing) }
    ensures content { IfOk result (λ x. live_content x.live ≡ kept_content (kept_in x)) }
    ensures room { D.is_honest disk.old → length (D.seen disk.old) < 2 ^ 64
        → IfOk result (λ x. IsMapOf (extents_in (kept_in x)) (taken_of x.live.room.map)) }
    ensures root { IfOk result (λ x. x.root ≡ root) }
    ensures limit { IfOk result (λ x. limit_of x.live.room.map ≡ max_blocks) }
    ensures next_limit { IfOk result (λ x. limit_of x.next_live.room.map ≡ max_blocks) }
    ensures stored { IfOk result (λ x. AreStored x.content.value.layers (tiles_in x.content.value)) }
    ensures cause { D.is_honest disk.old → Causes result (D.faults disk.old) (D.faults disk.new) }
{
    let listing = listing_at(alloc, disk, size, root)?;
    let table = content_of(alloc, disk, size, &listing)?;
    let content = Arc::new(alloc, table)?;
    let live = LiveRecords::new(alloc, root.catalog, listing, content.clone()?, max_blocks)?;
    let next_room = no_room(alloc, max_blocks)?;
    Ok(Loaded {
        root,
        content,
        live,
        next_live: LiveRecords::empty(alloc, next_room),
    })
}
