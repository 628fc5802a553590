//! A crash within a commit.
use crate::store::opened_disk;
use crate::testing::{COMMITTED, CREATED, committed};
use disk_model::image::Choice;
use disk_model::mem_disk::MemDisk;
use std::alloc::Global;
use std::process::Abort;

/// What a crash may leave of the writes that are not synced.
const CHOICES: &[Choice] = &[
    Choice::Old,
    Choice::New,
    Choice::Fill(0),
    Choice::Fill(0x55),
    Choice::Fill(0xA7),
];

/// The version that is opened after a crash after so many calls.
fn number_after(
    rt: &impl Abort,
    disk: &MemDisk,
    alloc: Global,
    calls: usize,
    choice: Choice,
) -> Option<u64> {
    let left = disk.image(calls, choice).expect(rt, "memory");
    match opened_disk(rt, alloc, left) {
        (_, Ok((number, _, _))) => Some(number),
        (_, Err(_)) => None,
    }
}

/// Checks the version that is opened after a crash after so many calls of making a store and committing.
fn check_number(rt: &impl Abort, number: Option<u64>, calls: usize) {
    assert!(rt;
        number == Some(0) || number == Some(1),
        "after {calls} calls"
    );
    if calls < CREATED + COMMITTED - 1 {
        assert!(rt;
            number == Some(0),
            "before the opening write, after {calls} calls"
        );
    }
    if calls == CREATED + COMMITTED {
        assert!(rt; number == Some(1), "after the last sync");
    }
}

#[test]
fn a_crash_at_any_call_of_a_commit_leaves_the_old_or_the_new(rt: HostRuntime) {
    let alloc = rt.alloc();
    let disk = committed(&rt, alloc);
    for calls in CREATED..=CREATED + COMMITTED {
        for &choice in CHOICES {
            check_number(&rt, number_after(&rt, &disk, alloc, calls, choice), calls);
        }
    }
}
