//! Batches: their answers, and crashes at each device call of the commit of one.
use crate::tests::testing::{
    BLOCKS, CHOICES, CREATED, SHIFTED, SQUARE, Words, check_commit, drive,
};
use disk_model::mem_disk::MemDisk;
use overlay_engine::step::Reply;
use std::alloc::Global;
use std::process::Abort;
use std::test::Fail;
use test_machines::machine::Machine;

/// How many calls the commit of a batch of two layers makes.
const CALLS: usize = 9;

/// The number of the version that a disk recovers to, and how many layers it has.
fn left(alloc: Global, disk: MemDisk) -> Result<(u64, usize), Fail> {
    let engine = Machine::recover(alloc, disk, BLOCKS)?;
    Ok((engine.number(), engine.layer_count()))
}

/// Checks what a crash after so many calls of the commit leaves.
fn check_left(rt: &impl Abort, found: (u64, usize), calls: usize) {
    let whole = found == (1, 2);
    assert!(rt; whole || found == (0, 0), "after {calls} calls");
    assert!(rt; !whole || calls >= CALLS - 1, "after {calls} calls");
    assert!(rt; whole || calls < CALLS, "after {calls} calls");
}

/// The disk of a new store on which the batch is committed.
fn committed(rt: &impl Abort, alloc: Global) -> Result<MemDisk, Fail> {
    let mut engine = Machine::in_memory(alloc, BLOCKS)?;
    let batch = Words::Both("A", SQUARE, "B", SHIFTED);
    check_commit(rt, alloc, &mut engine, batch, CALLS, 1)?;
    Ok(engine.into_disk())
}

#[test]
fn a_crash_at_each_call_leaves_no_layer_of_a_batch_or_all(rt: HostRuntime) -> Result<(), Fail> {
    let disk = committed(&rt, rt.alloc())?;
    assert_eq!(rt; disk.calls().len(), CREATED + CALLS);
    for calls in 0..=CALLS {
        for &choice in &CHOICES {
            let image = disk.image(CREATED.saturating_add(calls), choice)?;
            check_left(&rt, left(rt.alloc(), image)?, calls);
        }
    }
    Ok(())
}

/// Batches that are refused for a command, or accepted.
const BATCHES: &[Words] = &[
    Words::Both("A", SQUARE, "Z", ""),
    Words::Define("I", "A"),
    Words::Both("A", SQUARE, "B", SHIFTED),
    Words::Define("I", "B"),
    Words::Both("B", "", "I", ""),
    Words::Both("I", "", "B", ""),
];

const BATCH_ANSWERS: &[Reply] = &[
    Reply::RefusedAt(1, 10),
    Reply::Refused(10),
    Reply::Accepted(1),
    Reply::Accepted(2),
    Reply::RefusedAt(0, 14),
    Reply::Accepted(3),
];

#[test]
fn a_batch_is_refused_whole_or_raises_the_number_by_one(rt: HostRuntime) -> Result<(), Fail> {
    let mut engine = Machine::in_memory(rt.alloc(), BLOCKS)?;
    let replies = drive(rt.alloc(), &mut engine, BATCHES)?;
    assert!(rt; replies.as_slice() == BATCH_ANSWERS);
    assert_eq!(rt; engine.layer_count(), 1);
    Ok(())
}
