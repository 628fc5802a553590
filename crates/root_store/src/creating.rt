//! Making a store of an empty file.
ghost use Rattle.std.specs.Prelude.{◌≡◌, ◌↔◌, ◌+◌, ◌≤◌, length, replicate, IfOk, IfErr, MatchResult};
ghost use Rattle.disk_model.specs.Disk.{Holds, Torn};
ghost use Rattle.extent_map.specs.Taken.{taken_of, limit_of};
ghost use Rattle.commit_plan.specs.Kept.{extents_in};
ghost use Rattle.root_reading.specs.RootRuns.{IsMapOf};
ghost use Rattle.root_store.specs.Running.{KeepsTo};
ghost use Rattle.root_store.specs.Creating.{nothing_kept, first_root, IsFirstWrite};
ghost use Rattle.root_store.specs.HonestSteps.{ChecksHonestly, FormatsHonestly, PreparesHonestly};
ghost use Rattle.root_store.specs.HonestStore.{CreatesHonestly};

use crate::commit::Commit;
use crate::open_fault::OpenFault;
use crate::phase::Phase;
use commit_plan::fault::StoreFault;
use commit_plan::live_records::LiveRecords;
use commit_plan::room::Room;
use disk_model::disk::Disk;
use disk_model::fault::DiskFault;
use extent_map::extent::Extent as Run;
use extent_map::{BLOCK, FIRST_BLOCK};
use record_writing::root_body::write_body;
use std::alloc::{AllocError, Global};
use store_receipt::store_name::StoreName;
use store_terms::layout::{BODY, GATE_OPEN, NEW_BLOCKS, SLOTS_END};
use store_terms::root::{RecordExtent, Root};

/// Where the empty catalog of a new store lies.
const CATALOG: RecordExtent = RecordExtent {
    block: FIRST_BLOCK,
    size: 2,
};

/// The root of a new store.
const FIRST: Root = Root {
    is_old: false,
    sequence: 0,
    version: 0,
    catalog: CATALOG,
};

/// The root beside it, behind a gate that is shut.
const TWIN: Root = Root {
    is_old: false,
    sequence: 1,
    version: 0,
    catalog: CATALOG,
};

/// Puts bytes in the place of others.
fn put(file: &mut Vec<u8>, at: usize, bytes: &[u8])
    requires { at + length bytes.now ≤ length file.old.items }
    ensures holds { Holds file.new.items at bytes.now }
    ensures others { Torn at (length bytes.now) file.old.items file.new.items }
{
    file[at..at + bytes.len()].copy_from_slice(bytes);
}

fn zeros(alloc: Global, size: usize) -> Result<Vec<u8>, AllocError>
    ensures { IfOk result (λ v. v.items ≡ replicate size 0) }
{
    vec![in alloc; 0; size]
}

/// Three blocks: two slots with shut gates, and an empty catalog; zeros elsewhere.
fn blank(alloc: Global) -> Result<Vec<u8>, AllocError>
    ensures { IfOk result (λ v. IsFirstWrite v.items) }
{
    let mut file = zeros(alloc, SLOTS_END + BLOCK)?;
    put(&mut file, BODY, &write_body(FIRST));
    put(&mut file, BLOCK + BODY, &write_body(TWIN));
    put(&mut file, SLOTS_END, &[0, 0]);
    Ok(file)
}

/// Refuses a file that is not empty, and a limit that leaves no block for the catalog.
fn check<D: Disk>(disk: &mut D, max_blocks: u32) -> Result<(), StoreFault>
    ensures honest { D.is_honest disk.new ↔ D.is_honest disk.old }
    ensures checks { D.is_honest disk.old → ChecksHonestly D.Disk max_blocks disk.old disk.new result }
{
    if disk.length()? != 0 {
        return Err(StoreFault::NotEmpty);
    }
    if max_blocks < NEW_BLOCKS {
        return Err(StoreFault::Full);
    }
    Ok(())
}

/// Writes a new store into an empty file, and then opens its gate.
fn format<D: Disk>(disk: &mut D, bytes: &[u8]) -> Result<(), DiskFault>
    requires { IsFirstWrite bytes.now }
    ensures honest { D.is_honest disk.new ↔ D.is_honest disk.old }
    ensures formats { D.is_honest disk.old → FormatsHonestly D.Disk disk.old disk.new result }
{
    disk.write_at(0, bytes)?;
    disk.sync()?;
    disk.write_at(0, &[GATE_OPEN])?;
    disk.sync()
}

/// The runs that a new store takes, and none.
fn rooms(alloc: Global, max_blocks: u32) -> Result<(Room, Room), StoreFault>
    ensures room { IfOk result (λ rooms. IsMapOf (extents_in nothing_kept) (taken_of rooms.0.map)) }
    ensures limit { IfOk result (λ rooms. limit_of rooms.0.map ≡ max_blocks) }
    ensures next_limit { IfOk result (λ rooms. limit_of rooms.1.map ≡ max_blocks) }
    ensures err { IfErr result (λ fault. fault ≡ StoreFault.OutOfMemory) }
{
    let Some(run) = Run::new(FIRST_BLOCK, 1) else {
        unreachable!()
    };
    let room = Room::of(alloc, &[run], max_blocks)?;
    let none = Room::of(alloc, &[], max_blocks)?;
    Ok((room, none))
}

/// Makes a store on a disk, once its memory is there.
fn prepare<D: Disk>(
    alloc: Global,
    disk: &mut D,
    max_blocks: u32,
) -> Result<(Room, Room), StoreFault>
    ensures honest { D.is_honest disk.new ↔ D.is_honest disk.old }
    ensures prepares { D.is_honest disk.old → PreparesHonestly D.Disk max_blocks disk.old disk.new result }
    ensures room { IfOk result (λ rooms. IsMapOf (extents_in nothing_kept) (taken_of rooms.0.map)) }
    ensures limit { IfOk result (λ rooms. limit_of rooms.0.map ≡ max_blocks) }
    ensures next_limit { IfOk result (λ rooms. limit_of rooms.1.map ≡ max_blocks) }
{
    check(disk, max_blocks)?;
    let bytes = blank(alloc)?;
    let rooms = rooms(alloc, max_blocks)?;
    format(disk, &bytes)?;
    Ok(rooms)
}

/// Makes a store that holds nothing of a file that is empty, by five device calls. The file may have at most so many
/// blocks. A crash before the last of them may leave a file that is no store.
///
/// What is promised of an honest disk (`CreatesHonestly`):
/// - `ok`: the store holds nothing.
/// - `file`: three blocks that are zero but for the bodies, the catalog and the first gate, which alone is open.
/// - `phases`: what is written first has both gates shut, and is synced before the first gate opens; from then on a
///   crash leaves those three blocks, whatever that gate.
/// - `answer`: a file is refused that is not empty, or has no block for the catalog; memory is asked for after that.
/// - `unchanged`: a file that is refused stays as it is.
/// - `cause`: the device failed where it is said to be at fault.
/// - `calls`: five device calls are made; of a file that is refused, or without memory, the length alone is asked for.
pub fn create<D: Disk>(
    alloc: Global,
    mut disk: D,
    max_blocks: u32,
) -> Result<Commit<D>, OpenFault<D>>
    ensures creates { D.is_honest disk → CreatesHonestly D.Disk max_blocks disk result }
    ensures honest { MatchResult result (λ store. D.is_honest store.disk ↔ D.is_honest disk)
        (λ refused. D.is_honest refused.disk ↔ D.is_honest disk) }
    // No commit is under way.
    ensures idle { IfOk result (λ store. store.phase ≡ Phase.Idle) }
    ensures root { IfOk result (λ store. store.root ≡ first_root) }
    ensures limit { IfOk result (λ store. KeepsTo max_blocks store) }
{
    match prepare(alloc, &mut disk, max_blocks) {
        Ok((room, next_room)) => Ok(Commit {
            disk,
            name: StoreName::new(),
            root: FIRST,
            live: LiveRecords::empty(alloc, room),
            phase: Phase::Idle,
            next_root: FIRST,
            next_live: LiveRecords::empty(alloc, next_room),
            plan: Vec::new(alloc),
            next: 0,
        }),
        Err(fault) => Err(OpenFault { fault, disk }),
    }
}
