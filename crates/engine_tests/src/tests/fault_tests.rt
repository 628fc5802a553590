//! What an engine answers where a device call fails.
use crate::tests::testing::{BLOCKS, CREATED, put_square};
use disk_model::mem_disk::MemDisk;
use overlay_engine::step::Reply;
use std::alloc::Global;
use std::test::Fail;
use test_disks::fault_disk::FaultDisk;
use test_machines::machine::Machine;

/// The answers to a layer and to four device calls of its commit, of which the third fails.
const ANSWERS: &[Reply] = &[
    Reply::Accepted(1),
    Reply::Going,
    Reply::Going,
    Reply::Refused(30),
    Reply::Refused(35),
];

/// An engine over an empty file on a disk whose third call after those that make the store fails.
fn failing(alloc: Global) -> Result<Machine<FaultDisk<MemDisk>>, Fail> {
    let disk = MemDisk::new(alloc, Vec::new(alloc))?;
    let failing = FaultDisk::new(disk, CREATED as u64 + 2);
    Ok(Machine::create(alloc, failing, BLOCKS)?)
}

#[test]
fn a_commit_whose_third_call_fails_leaves_the_version_before(rt: HostRuntime) -> Result<(), Fail> {
    let mut engine = failing(rt.alloc())?;
    let replies = put_square(rt.alloc(), &mut engine, 4)?;
    assert!(rt; replies.as_slice() == ANSWERS);
    // The disk works again.
    let below = engine.into_disk().into_disk();
    let left = Machine::recover(rt.alloc(), below, BLOCKS)?;
    assert_eq!(rt; left.number(), 0);
    Ok(())
}
