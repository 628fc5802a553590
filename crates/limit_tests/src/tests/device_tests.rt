//! A device that stops after each call of making a store, of a commit and of an opening, or fails in it alone.
use crate::tests::testing::{SQUARE, put};
use disk_model::disk::Disk;
use disk_model::image::Choice;
use disk_model::mem_disk::MemDisk;
use overlay_engine::step::{Reply, Step};
use std::alloc::Global;
use std::process::Abort;
use test_disks::fault_disk::FaultDisk;
use test_disks::plan::Plan;
use test_disks::planned_disk::PlannedDisk;
use test_disks::stop_disk::StopDisk;
use test_machines::machine::Machine;
use test_machines::refused::Refused;

/// What a crash makes of the bytes that are written and not synced.
const CHOICES: [Choice; 5] = [
    Choice::Old,
    Choice::New,
    Choice::Fill(0),
    Choice::Fill(0x55),
    Choice::Fill(0xA7),
];

/// How many device calls make a new store, and how many more commit one layer.
const CREATED: u64 = 5;

const COMMITTED: u64 = 8;

/// The versions that a file may be opened as, each by its number, which is that of its layers as well: `None` where the
/// file may be no store.
type Left = &'static [Option<usize>];

/// A disk with these bytes.
fn disk_of(rt: &impl Abort, alloc: Global, bytes: &[u8]) -> MemDisk {
    let copy = Vec::from_slice(alloc, bytes).expect(rt, "memory");
    MemDisk::new(alloc, copy).expect(rt, "memory")
}

/// The version that a disk is opened as, or `None` where it is no store.
fn found(rt: &impl Abort, alloc: Global, disk: MemDisk) -> Option<usize> {
    match Machine::recover(alloc, disk, 100) {
        Ok(engine) => {
            let layers = engine.layer_count();
            assert!(rt; engine.number() == layers as u64);
            Some(layers)
        }
        Err(refused) => {
            assert!(rt; refused.fault.code() == 32);
            None
        }
    }
}

/// Checks what a disk that works again is opened as, and so after a crash.
fn check_left(rt: &impl Abort, alloc: Global, disk: &MemDisk, left: Left) {
    let seen = found(rt, alloc, disk_of(rt, alloc, disk.bytes()));
    assert!(rt; left.contains(&seen));
    for (place, &choice) in CHOICES.iter().enumerate() {
        let image = disk.image(usize::MAX, choice).expect(rt, "memory");
        assert!(rt; left.contains(&found(rt, alloc, image)), "choice {place}");
    }
}

/// The disk that comes back from an engine that was not made or recovered for the device.
fn handed_back<D: Disk>(rt: &impl Abort, got: Result<Machine<D>, Refused<D>>) -> D {
    match got {
        Ok(_) => panic!(rt; "no call failed"),
        Err(refused) => {
            assert!(rt; refused.fault.code() == 30);
            refused.disk
        }
    }
}

fn empty(rt: &impl Abort, alloc: Global) -> MemDisk {
    disk_of(rt, alloc, &[])
}

/// What a file may be opened as after so many calls that make a store: the fourth of them opens its gate.
fn left_of_making(calls: u64) -> Left {
    if calls < CREATED - 1 {
        return &[None];
    }
    &[None, Some(0)]
}

#[test]
fn a_store_that_is_not_made_for_the_device_is_none_or_empty(rt: HostRuntime) {
    let alloc = rt.alloc();
    for calls in 0..CREATED {
        let stopping = StopDisk::new(empty(&rt, alloc), calls);
        check_making(&rt, alloc, stopping, left_of_making(calls));
        let failing = FaultDisk::new(empty(&rt, alloc), calls);
        check_making(&rt, alloc, failing, left_of_making(calls));
    }
}

/// Checks what the disk below one is opened as that fails while a store is made.
fn check_making<P: Plan>(
    rt: &impl Abort,
    alloc: Global,
    disk: PlannedDisk<MemDisk, P>,
    left: Left,
) {
    let below = handed_back(rt, Machine::create(alloc, disk, 100)).into_disk();
    check_left(rt, alloc, &below, left);
}

/// The square A, and as many device calls as commit it.
fn steps(rt: &impl Abort, alloc: Global) -> Vec<Step> {
    let mut steps = Vec::new(alloc);
    let first = Step::Submit(put(rt, alloc, "A", SQUARE));
    steps.push(first).expect(rt, "memory");
    for _ in 0..COMMITTED {
        steps.push(Step::Device).expect(rt, "memory");
    }
    steps
}

/// The answer to a device call of that commit, where another fails.
fn answer(call: u64, failing: u64) -> Reply {
    if call < failing {
        return Reply::Going;
    }
    if call == failing {
        return Reply::Refused(30);
    }
    Reply::Refused(35)
}

/// Commits the square A to a new store on a disk of which a call fails, and gives the disk below.
fn disturbed<P: Plan>(
    rt: &impl Abort,
    alloc: Global,
    disk: PlannedDisk<MemDisk, P>,
    failing: u64,
) -> MemDisk {
    let mut engine = Machine::create(alloc, disk, 100).expect(rt, "a store");
    let steps = steps(rt, alloc);
    let replies = engine.drive(alloc, &steps).expect(rt, "memory");
    assert!(rt; replies.len() as u64 == 1 + COMMITTED);
    assert!(rt; replies.first().copied() == Some(Reply::Accepted(1)));
    for (place, &reply) in replies.iter().skip(1).enumerate() {
        assert!(rt;
            reply == answer(place as u64, failing),
            "call {place}, {failing} fails"
        );
    }
    engine.into_disk().into_disk()
}

/// What a file may be opened as after so many calls of that commit: the seventh of them opens the gate.
fn left_of_commit(calls: u64) -> Left {
    if calls < COMMITTED - 1 {
        return &[Some(0)];
    }
    &[Some(0), Some(1)]
}

#[test]
fn a_commit_that_the_device_disturbs_leaves_the_version_before_or_after(rt: HostRuntime) {
    let alloc = rt.alloc();
    for calls in 0..COMMITTED {
        let stopping = StopDisk::new(empty(&rt, alloc), CREATED + calls);
        check_commit(&rt, alloc, stopping, calls);
        let failing = FaultDisk::new(empty(&rt, alloc), CREATED + calls);
        check_commit(&rt, alloc, failing, calls);
    }
}

/// Checks what the disk below one is opened as of which a call of that commit fails.
fn check_commit<P: Plan>(
    rt: &impl Abort,
    alloc: Global,
    disk: PlannedDisk<MemDisk, P>,
    calls: u64,
) {
    let below = disturbed(rt, alloc, disk, calls);
    check_left(rt, alloc, &below, left_of_commit(calls));
}

/// A file with the square A, whose first gate is shut: opening it writes.
fn half_shut(rt: &impl Abort, alloc: Global) -> Vec<u8> {
    let mut engine = Machine::in_memory(alloc, 100).expect(rt, "a store");
    let steps = steps(rt, alloc);
    let replies = engine.drive(alloc, &steps).expect(rt, "memory");
    assert!(rt; replies.last().copied() == Some(Reply::Done(1)));
    let bytes = engine.into_disk().bytes().to_vec(alloc);
    let mut file = bytes.expect(rt, "memory");
    if let Some(gate) = file.first_mut() {
        *gate = 0x55;
    }
    file
}

/// How many device calls open such a file.
fn opening_calls(rt: &impl Abort, alloc: Global, file: &[u8]) -> u64 {
    let disk = disk_of(rt, alloc, file);
    let engine = Machine::recover(alloc, disk, 100).expect(rt, "a store");
    engine.into_disk().calls().len() as u64
}

#[test]
fn an_opening_that_the_device_disturbs_leaves_what_the_file_had(rt: HostRuntime) {
    let alloc = rt.alloc();
    let file = half_shut(&rt, alloc);
    let calls = opening_calls(&rt, alloc, &file);
    assert!(rt; calls > 4);
    for call in 0..calls {
        let stopping = StopDisk::new(disk_of(&rt, alloc, &file), call);
        check_opening(&rt, alloc, stopping);
        let failing = FaultDisk::new(disk_of(&rt, alloc, &file), call);
        check_opening(&rt, alloc, failing);
    }
}

/// Checks what the disk below one is opened as that fails while such a file is opened.
fn check_opening<P: Plan>(rt: &impl Abort, alloc: Global, disk: PlannedDisk<MemDisk, P>) {
    let below = handed_back(rt, Machine::recover(alloc, disk, 100)).into_disk();
    check_left(rt, alloc, &below, &[Some(1)]);
}
