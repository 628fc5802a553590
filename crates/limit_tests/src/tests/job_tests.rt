//! More than 1,000 jobs that one engine holds: the same tile, handed out again and again,
//! of which the last one is kept.
use crate::tests::testing::{SHIFTED, SQUARE, define, name_of, put};
use disk_model::mem_disk::MemDisk;
use overlay_engine::step::{Reply, Step};
use std::alloc::Global;
use std::process::Abort;
use test_machines::machine::Machine;

/// How many jobs are held at once.
const JOBS: u32 = 1001;

/// Makes the two squares and where both are.
fn add_layers(rt: &impl Abort, alloc: Global, steps: &mut Vec<Step>) {
    let first = Step::Submit(put(rt, alloc, "A", SQUARE));
    steps.push(first).expect(rt, "memory");
    let second = Step::Submit(put(rt, alloc, "B", SHIFTED));
    steps.push(second).expect(rt, "memory");
    let both = Step::Submit(define(rt, alloc, "I", "A & B"));
    steps.push(both).expect(rt, "memory");
}

/// That, the jobs, and then the last of them, the first, both once more, and one that nobody has.
fn steps(rt: &impl Abort, alloc: Global) -> Vec<Step> {
    let mut steps = Vec::new(alloc);
    add_layers(rt, alloc, &mut steps);
    for _ in 0..JOBS {
        let taken = Step::Take(name_of(rt, alloc, "I"), 16);
        steps.push(taken).expect(rt, "memory");
    }
    for &job in &[1000, 0, 1000, 0, 1001] {
        steps.push(Step::Finish(job)).expect(rt, "memory");
    }
    steps
}

/// The answers after the jobs.
const LAST: &[Reply] = &[
    Reply::Kept,
    Reply::Stale,
    Reply::NoJob,
    Reply::NoJob,
    Reply::NoJob,
];

fn check(rt: &impl Abort, alloc: Global, engine: &mut Machine<MemDisk>) {
    let steps = steps(rt, alloc);
    let replies = engine.drive(alloc, &steps).expect(rt, "memory");
    for job in 0..JOBS {
        assert!(rt;
            replies.get(3 + job as usize).copied() == Some(Reply::Taken(job)),
            "job {job}"
        );
    }
    assert!(rt; replies.ends_with(LAST));
}

#[test]
fn more_than_1000_jobs_are_held(rt: HostRuntime) {
    let mut engine = Machine::in_memory(rt.alloc(), 100).expect(&rt, "a store");
    check(&rt, rt.alloc(), &mut engine);
}
