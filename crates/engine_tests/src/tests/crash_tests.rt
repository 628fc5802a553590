//! Crashes at each device call of two commits, and of the recoveries after them.
use crate::tests::testing::{
    BLOCKS, CHOICES, CREATED, SHIFTED, SQUARE, Words, check_commit, drive,
};
use disk_model::image::Choice;
use disk_model::mem_disk::MemDisk;
use overlay_engine::step::Reply;
use std::alloc::Global;
use std::process::Abort;
use std::test::Fail;
use test_machines::machine::Machine;

/// How many calls the commits of A, and then of B beside it, make.
const FIRST: usize = 8;

const SECOND: usize = 8;

/// The layers of the versions 0, 1 and 2.
const LAYERS: [&str; 3] = [
    "layers 0\n",
    "layers 1\nA MULTIPOLYGON (((0 0, 10 0, 10 10, 0 10, 0 0)))\n",
    "layers 2\nA MULTIPOLYGON (((0 0, 10 0, 10 10, 0 10, 0 0)))\nB MULTIPOLYGON (((5 5, 15 5, 15 15, 5 15, 5 5)))\n",
];

/// The version that a crash after so many calls of the two commits leaves. The last call but one of each opens a gate,
/// and the last syncs it: where the crash leaves the gate open, it is as if that were synced.
fn left_after(calls: usize, choice: Choice) -> usize {
    let opens = matches!(choice, Choice::New | Choice::Fill(0xA7));
    let synced = calls.saturating_add(usize::from(opens));
    if synced < FIRST {
        return 0;
    }
    if synced < FIRST + SECOND {
        return 1;
    }
    2
}

/// Whether a disk recovers to just this version, all of it durable; and the disk then.
fn is_left(alloc: Global, disk: MemDisk, number: usize) -> Result<(bool, MemDisk), Fail> {
    let engine = Machine::recover(alloc, disk, BLOCKS)?;
    let listed = engine.listed(alloc)?;
    let same = engine.number() == number as u64
        && engine.durable() == number as u64
        && LAYERS
            .get(number)
            .is_some_and(|text| text.as_bytes() == listed.as_slice());
    Ok((same, engine.into_disk()))
}

/// Whether each crash of a recovery leaves this version. It writes nothing before its last two calls.
fn are_left(alloc: Global, disk: &MemDisk, number: usize) -> Result<bool, Fail> {
    let made = disk.calls().len();
    for calls in made.saturating_sub(2)..=made {
        for &choice in &CHOICES {
            if !is_left(alloc, disk.image(calls, choice)?, number)?.0 {
                return Ok(false);
            }
        }
    }
    Ok(true)
}

/// Whether a crash after so many calls of the two commits leaves its version, and so each crash of the recovery.
fn recovers(alloc: Global, disk: &MemDisk, calls: usize, choice: Choice) -> Result<bool, Fail> {
    let number = left_after(calls, choice);
    let left = disk.image(CREATED.saturating_add(calls), choice)?;
    let (same, recovered) = is_left(alloc, left, number)?;
    Ok(same && are_left(alloc, &recovered, number)?)
}

/// Puts, commits and reports A, and then puts and commits B.
fn check_commits(
    rt: &impl Abort,
    alloc: Global,
    engine: &mut Machine<MemDisk>,
) -> Result<(), Fail> {
    check_commit(rt, alloc, engine, Words::Put("A", SQUARE), FIRST, 1)?;
    let reported = drive(alloc, engine, &[Words::Report])?;
    assert!(rt; reported.as_slice() == [Reply::Durable(1)].as_slice());
    check_commit(rt, alloc, engine, Words::Put("B", SHIFTED), SECOND, 2)
}

#[test]
fn a_crash_at_each_call_leaves_the_version_before_or_after(rt: HostRuntime) -> Result<(), Fail> {
    let mut engine = Machine::in_memory(rt.alloc(), BLOCKS)?;
    check_commits(&rt, rt.alloc(), &mut engine)?;
    let disk = engine.into_disk();
    assert_eq!(rt; disk.calls().len(), CREATED + FIRST + SECOND);
    for calls in 0..=FIRST + SECOND {
        for &choice in &CHOICES {
            assert!(rt;
                recovers(rt.alloc(), &disk, calls, choice)?,
                "after {calls} calls"
            );
        }
    }
    Ok(())
}
