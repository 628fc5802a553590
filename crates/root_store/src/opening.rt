//! Opening a store.
ghost use Rattle.std.specs.Prelude.{◌≡◌, ◌↔◌, ◌≤◌, map, IfOk, IfErr, OnOk, MatchResult};
ghost use Rattle.disk_model.specs.Disk.{Only, CountsCall};
ghost use Rattle.overlay_terms.specs.Commands.{version_max};
ghost use Rattle.overlay_terms.specs.StoredTiles.{AreStored};
ghost use Rattle.layer_tiles.specs.Table.{tiles_in};
ghost use Rattle.extent_map.specs.Taken.{limit_of};
ghost use Rattle.commit_plan.specs.Loaded.{kept_in};
ghost use Rattle.commit_plan.specs.Staying.{kept_content};
ghost use Rattle.commit_plan.specs.Live.{live_content};
ghost use Rattle.root_reading.specs.Looking.{OnlyLooks};
ghost use Rattle.root_store.specs.Running.{KeepsTo};
ghost use Rattle.root_store.specs.HonestSteps.{ReadsHonestly, LoadsHonestly};
ghost use Rattle.root_store.specs.HonestStore.{OpensHonestly};

use crate::commit::Commit;
use crate::finding::find_root;
use crate::healing::heal;
use crate::open_fault::OpenFault;
use crate::phase::Phase;
use commit_plan::fault::{StoreFault, store_fault_of};
use commit_plan::image::Image;
use commit_plan::loaded::{Loaded, read_root};
use disk_model::disk::Disk;
use root_reading::load_fault::LoadFault;
use std::alloc::Global;
use store_receipt::store_name::StoreName;
use store_terms::layout::NUMBER_MAX;

/// Makes what was written stay: from then on a crash leaves what is seen, and nothing else.
fn settle<D: Disk>(disk: &mut D) -> Result<(), LoadFault>
    ensures looks { OnlyLooks D.Disk result disk.old disk.new }
    ensures only { D.is_honest disk.old → OnOk result (Only (D.seen disk.old) (D.may_leave disk.new)) }
    ensures err { IfErr result (λ e. e ≡ LoadFault.Device) }
    // One sync.
    ensures calls { D.is_honest disk.old → CountsCall result (D.calls disk.old) (D.calls disk.new) }
{
    disk.sync()?;
    Ok(())
}

/// What a file holds, read after a sync, and whether one of its gates is shut.
fn read_store<D: Disk>(
    alloc: Global,
    disk: &mut D,
    max_blocks: u32,
) -> Result<(Loaded, bool), LoadFault>
    ensures looks { OnlyLooks D.Disk result disk.old disk.new }
    ensures reads { D.is_honest disk.old → ReadsHonestly D.Disk disk.old disk.new result }
    ensures limit { IfOk result (λ x. limit_of x.0.live.room.map ≡ max_blocks) }
    ensures next_limit { IfOk result (λ x. limit_of x.0.next_live.room.map ≡ max_blocks) }
    ensures stored { IfOk result (λ x. AreStored x.0.content.value.layers (tiles_in x.0.content.value)) }
    ensures content { IfOk result (λ x. live_content x.0.live ≡ kept_content (kept_in x.0)) }
    ensures numbered { IfOk result (λ x. x.0.root.version ≤ version_max) }
{
    settle(disk)?;
    let (root, has_shut_gate, size) = find_root(disk)?;
    let loaded = read_root(alloc, disk, size, root, max_blocks)?;
    Ok((loaded, has_shut_gate))
}

/// What a file holds. Where one of its gates is shut, the body behind it is made whole.
pub(crate) fn load<D: Disk>(
    alloc: Global,
    disk: &mut D,
    max_blocks: u32,
) -> Result<Loaded, LoadFault>
    ensures honest { D.is_honest disk.new ↔ D.is_honest disk.old }
    ensures loads { D.is_honest disk.old → LoadsHonestly D.Disk disk.old disk.new result }
    ensures limit { IfOk result (λ x. limit_of x.live.room.map ≡ max_blocks) }
    ensures next_limit { IfOk result (λ x. limit_of x.next_live.room.map ≡ max_blocks) }
    ensures stored { IfOk result (λ x. AreStored x.content.value.layers (tiles_in x.content.value)) }
    ensures content { IfOk result (λ x. live_content x.live ≡ kept_content (kept_in x)) }
    ensures numbered { IfOk result (λ x. x.root.version ≤ version_max) }
{
    let (loaded, has_shut_gate) = read_store(alloc, disk, max_blocks)?;
    if !has_shut_gate {
        return Ok(loaded);
    }
    if loaded.root.sequence >= NUMBER_MAX {
        return Ok(loaded);
    }
    heal(disk, loaded.root)?;
    Ok(loaded)
}

/// Opens the store of a file that a crash may have left: what it holds, or what is wrong with it.
/// It may itself be stopped, or fail, and the file holds the same.
///
/// What is promised of an honest disk (`OpensHonestly`):
/// - `gives`: what the file holds, or what is wrong with it.
/// - `ok`, `err`: the store holds just that; a crash at any moment of the call leaves what it might have left
///   before, or a file that holds the same.
/// - `phases`, `stops`: the first call is a sync. What might have been left before is left until it has succeeded, and
///   no longer; from then on the file as it was seen, but for the body behind a shut gate. After the reads there are
///   two calls at most.
/// - `writes`: nothing is written but the body behind a shut gate.
/// - `completed`, `completes`: where that gate was shut and a number is left, the body is the root's own under the next
///   number, and synced, by the last two calls.
/// - `untouched`: nothing at all is written of a file that is refused.
/// - `memory`: memory is asked for only where the slots name a root.
/// - `cause`: the device failed where it is said to be at fault, and nowhere else.
pub fn open<D: Disk>(
    alloc: Global,
    mut disk: D,
    max_blocks: u32,
) -> Result<(Commit<D>, Image), OpenFault<D>>
    ensures opens { D.is_honest disk → OpensHonestly D.Disk disk result }
    ensures honest { MatchResult result (λ x. D.is_honest x.0.disk ↔ D.is_honest disk)
        (λ refused. D.is_honest refused.disk ↔ D.is_honest disk) }
    // No commit is under way, and the live root has the number that was read.
    ensures idle { IfOk result (λ x. x.0.phase ≡ Phase.Idle) }
    ensures number { IfOk result (λ x. x.1.number ≡ x.0.root.version) }
    ensures limit { IfOk result (λ x. KeepsTo max_blocks x.0) }
{
    match load(alloc, &mut disk, max_blocks) {
        Ok(loaded) => {
            let root = loaded.root;
            let image = Image::of_table(root.version, loaded.content);
            let commit = Commit {
                disk,
                name: StoreName::new(),
                root,
                live: loaded.live,
                phase: Phase::Idle,
                next_root: root,
                next_live: loaded.next_live,
                plan: Vec::new(alloc),
                next: 0,
            };
            Ok((commit, image))
        }
        Err(fault) => Err(OpenFault {
            fault: store_fault_of(fault),
            disk,
        }),
    }
}
