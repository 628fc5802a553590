//! Limits of blocks and of numbers.
use crate::tests::testing::{BLOCKS, CREATED, disk_of, put_square, writes_nothing};
use disk_model::disk::Disk;
use disk_model::mem_disk::MemDisk;
use overlay_engine::step::Reply;
use std::alloc::Global;
use std::process::Abort;
use std::test::Fail;
use test_machines::machine::Machine;

#[test]
fn two_blocks_make_no_store(rt: HostRuntime) -> Result<(), Fail> {
    match Machine::in_memory(rt.alloc(), 2) {
        Ok(_) => Err(Fail::new("made")),
        Err(fault) => {
            assert_eq!(rt; fault.code(), 31);
            Ok(())
        }
    }
}

/// Compares the replies to the layer, to the first device call and to the last.
fn check_replies(rt: &impl Abort, replies: &[Reply], first: Reply, last: Reply) {
    assert!(rt; replies.first().copied() == Some(Reply::Accepted(1)));
    assert!(rt; replies.get(1).copied() == Some(first));
    assert!(rt; replies.last().copied() == Some(last));
}

#[test]
fn four_blocks_are_too_few_for_a_layer_and_five_are_enough(rt: HostRuntime) -> Result<(), Fail> {
    for &(max_blocks, first, last, calls) in &[
        (4, Reply::Refused(31), Reply::Refused(31), CREATED),
        (5, Reply::Going, Reply::Done(1), CREATED + 8),
    ] {
        let mut engine = Machine::in_memory(rt.alloc(), max_blocks)?;
        let replies = put_square(rt.alloc(), &mut engine, 8)?;
        check_replies(&rt, &replies, first, last);
        assert_eq!(rt; engine.into_disk().calls().len(), calls);
    }
    Ok(())
}

/// An empty store whose sequence and version are the greatest.
fn greatest(alloc: Global) -> Result<MemDisk, Fail> {
    let mut disk = Machine::in_memory(alloc, BLOCKS)?.into_disk();
    disk.write_at(28, &[64, 0, 0, 0, 0, 0, 0, 0, 64, 0, 0, 0, 0, 0, 0, 0])?;
    disk_of(alloc, disk.bytes())
}

#[test]
fn the_greatest_numbers_open_and_go_no_further(rt: HostRuntime) -> Result<(), Fail> {
    let left = greatest(rt.alloc())?;
    let mut engine = Machine::recover(rt.alloc(), left, BLOCKS)?;
    assert_eq!(rt; engine.number(), 1 << 62);
    let replies = put_square(rt.alloc(), &mut engine, 1)?;
    assert!(rt; replies.as_slice() == [Reply::Refused(16), Reply::Refused(36)].as_slice());
    assert!(rt; writes_nothing(engine.into_disk().calls()));
    Ok(())
}
