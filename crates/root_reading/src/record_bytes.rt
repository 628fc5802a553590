//! Records as the disk has them.
ghost use Rattle.std.specs.Prelude.{◌≡◌, ◌↔◌, ◌+◌, ◌<◌, ◌^◌, ◌&&◌, nat_le, length};
ghost use Rattle.store_terms.specs.Places.{blocks};
ghost use Rattle.root_reading.specs.LayerReading.{front_of};
ghost use Rattle.root_reading.specs.Looking.{Gives, Looks, Causes};

use crate::load_fault::LoadFault;
use disk_model::disk::Disk;
use extent_map::{BLOCK, FIRST_BLOCK, blocks_of};
use std::alloc::Global;
use store_terms::damage::Damage;
use store_terms::root::RecordExtent;

/// Whether a record lies after the slots in a file of so many blocks.
fn is_within(extent: RecordExtent, whole: u64) -> bool
    ensures { result ≡ (nat_le 2 extent.block && nat_le (extent.block + blocks extent.size) whole) }
{
    extent.block >= FIRST_BLOCK
        && extent.block <= whole
        && blocks_of(extent.size) <= whole - extent.block
}

/// The bytes of a record in a file of this size; the damage where it is not placed in it. Where a record is longer
/// than any of its form can be, they end one byte after that length: by these it is known, and no length that a
/// file claims asks for more memory.
pub(crate) fn fetch<D: Disk>(
    alloc: Global,
    disk: &mut D,
    size: usize,
    extent: RecordExtent,
    damage: Damage,
    most: usize,
) -> Result<Vec<u8>, LoadFault>
    requires size { D.is_honest disk.old → size ≡ length (D.seen disk.old) }
    requires most { most < 2 ^ 32 }
    ensures honest { D.is_honest disk.new ↔ D.is_honest disk.old }
    ensures looks { D.is_honest disk.old → Looks D.Disk disk.old disk.new }
    ensures gives { D.is_honest disk.old → Gives (λ v. v.items) result (front_of most damage (D.seen disk.old) extent) }
    ensures cause { D.is_honest disk.old → Causes result (D.faults disk.old) (D.faults disk.new) }
{
    if !is_within(extent, (size / BLOCK) as u64) {
        return Err(LoadFault::Damaged(damage));
    }
    let count = usize::min(extent.size as usize, most + 1);
    let mut bytes = vec![in alloc; 0; count]?;
    disk.read(extent.block as usize * BLOCK, &mut bytes)?;
    Ok(bytes)
}
