//! A batch of as many commands as there may be, through an engine, and its commit.
use crate::tests::testing::{SHIFTED, SQUARE, numbered, put};
use disk_model::mem_disk::MemDisk;
use layer_book::batch::Batch;
use layer_book::command::Command;
use overlay_engine::step::{Reply, Step};
use std::alloc::Global;
use std::process::Abort;
use test_machines::machine::Machine;

/// Puts one square under each of 32 names, and then the other: the 64 commands of the greatest batch.
fn commands(rt: &impl Abort, alloc: Global) -> Vec<Command> {
    let mut commands = Vec::new(alloc);
    for place in 0..64u8 {
        let name = numbered(rt, alloc, place % 32);
        let text = if place < 32 { SQUARE } else { SHIFTED };
        commands
            .push(put(rt, alloc, &name, text))
            .expect(rt, "memory");
    }
    commands
}

/// That batch, and the device calls of its commit: two that shut the gate, one for each of 32 layers, one for the
/// catalog, and four.
fn steps(rt: &impl Abort, alloc: Global) -> Vec<Step> {
    let batch = Batch::new(commands(rt, alloc)).expect(rt, "a batch");
    let mut steps = Vec::new(alloc);
    steps.push(Step::SubmitAll(batch)).expect(rt, "memory");
    for _ in 0..39 {
        steps.push(Step::Device).expect(rt, "memory");
    }
    steps
}

/// Checks that an opening gives the version after the batch.
fn check_opened(rt: &impl Abort, alloc: Global, disk: MemDisk) {
    let engine = Machine::recover(alloc, disk, 100).expect(rt, "a store");
    assert!(rt; engine.number() == 1);
    assert!(rt; engine.layer_count() == 32);
}

#[test]
fn a_batch_of_64_commands_is_one_version(rt: HostRuntime) {
    let alloc = rt.alloc();
    let mut engine = Machine::in_memory(alloc, 100).expect(&rt, "a store");
    let steps = steps(&rt, alloc);
    let replies = engine.drive(alloc, &steps).expect(&rt, "memory");
    assert!(rt; replies.first().copied() == Some(Reply::Accepted(1)));
    assert!(rt; replies.last().copied() == Some(Reply::Done(1)));
    check_opened(&rt, alloc, engine.into_disk());
}

#[test]
fn a_batch_of_65_commands_is_none(rt: HostRuntime) {
    let mut list = commands(&rt, rt.alloc());
    let one = put(&rt, rt.alloc(), "A", SQUARE);
    list.push(one).expect(&rt, "memory");
    match Batch::new(list) {
        Ok(_) => panic!(rt; "a batch"),
        Err(fault) => assert!(rt; fault.code() == 17),
    }
}
