//! The device calls of making, opening and committing.
use crate::testing::{CREATED, committed, created, only_reads, opened, put, stand_at, stored};
use disk_model::image::Choice;
use disk_model::mem_disk::Call;

/// A call: its letter, the offset, the number of bytes, and the first byte that is written.
type Shape = (char, usize, usize, u8);

/// Those that make a store, and then those that commit one layer.
const CALLS: &[Shape] = &[
    ('L', 0, 0, 0),
    ('W', 0, 12288, 0),
    ('S', 0, 0, 0),
    ('W', 0, 1, 0xA7),
    ('S', 0, 0, 0),
    ('W', 4096, 1, 0),
    ('S', 0, 0, 0),
    ('W', 12288, 4096, 0),
    ('W', 16384, 4096, 0),
    ('W', 4112, 48, b'O'),
    ('S', 0, 0, 0),
    ('W', 4096, 1, 0xA7),
    ('S', 0, 0, 0),
];

/// The bodies of both slots of a new store: sequences 0 and 1, version 0, the catalog of 2 bytes in block 2.
const FIRST: &[u8] =
    b"OVLSTORE\0\0\0\x02\0\0\0\0\0\0\0\0\0\0\0\0\0\0\0\0\0\0\0\0\0\0\0\x02\0\0\0\x02\0\0\0\0\0\0\0\0";

const TWIN: &[u8] =
    b"OVLSTORE\0\0\0\x02\0\0\0\0\0\0\0\x01\0\0\0\0\0\0\0\0\0\0\0\0\0\0\0\x02\0\0\0\x02\0\0\0\0\0\0\0\0";

/// The root's body of version 1 in slot 1, and the one that completes slot 0.
const ROOT: &[u8] =
    b"OVLSTORE\0\0\0\x02\0\0\0\0\0\0\0\x01\0\0\0\0\0\0\0\x01\0\0\0\0\0\0\0\x04\0\0\0\x11\0\0\0\0\0\0\0\0";

const NEXT: &[u8] =
    b"OVLSTORE\0\0\0\x02\0\0\0\0\0\0\0\x02\0\0\0\0\0\0\0\x01\0\0\0\0\0\0\0\x04\0\0\0\x11\0\0\0\0\0\0\0\0";

fn shape(call: &Call) -> Shape {
    match call {
        Call::Length => ('L', 0, 0, 0),
        Call::Read(at, size) => ('R', *at, *size, 0),
        Call::Write(at, bytes) => ('W', *at, bytes.len(), bytes.first().copied().unwrap_or(0)),
        Call::Sync => ('S', 0, 0, 0),
    }
}

/// Whether the calls are just these.
fn are(calls: &[Call], wanted: &[Shape]) -> bool {
    if calls.len() != wanted.len() {
        return false;
    }
    for (call, want) in calls.iter().zip(wanted) {
        if shape(call) != *want {
            return false;
        }
    }
    true
}

#[test]
fn a_new_store_and_a_commit_make_just_their_calls(rt: HostRuntime) {
    let disk = committed(&rt, rt.alloc());
    assert!(rt; are(disk.calls(), CALLS));
    let new = disk.image(CREATED, Choice::Old).expect(&rt, "memory");
    assert!(rt; stand_at(new.bytes(), 16, FIRST));
    assert!(rt; stand_at(new.bytes(), 4112, TWIN));
    assert!(rt; stand_at(new.bytes(), 8192, &[0, 0]));
    assert!(rt; stand_at(disk.bytes(), 4112, ROOT));
}

/// A file and the most blocks with which no store is made.
const NOT_MADE: &[(&[u8], u32)] = &[(&[], 2), (&[7], 100)];

#[test]
fn a_store_that_is_not_made_asks_for_the_length_alone(rt: HostRuntime) {
    for &(bytes, limit) in NOT_MADE {
        match created(&rt, rt.alloc(), bytes, limit) {
            Ok(_) => panic!(rt; "made"),
            Err((disk, _)) => assert!(rt; are(disk.calls(), &[('L', 0, 0, 0)])),
        }
    }
}

#[test]
fn opening_completes_the_slot_behind_a_shut_gate(rt: HostRuntime) {
    let alloc = rt.alloc();
    let bytes = committed(&rt, alloc).bytes().to_vec(alloc);
    let mut file = bytes.expect(&rt, "memory");
    put(&mut file, 0, &[0x55]);
    let (disk, found) = opened(&rt, alloc, &file);
    assert!(rt; found.is_ok());
    let calls = disk.calls();
    let (before, completing) = calls.split_at(calls.len().saturating_sub(2));
    assert!(rt; only_reads(before));
    assert!(rt; are(completing, &[('W', 16, 48, b'O'), ('S', 0, 0, 0)]));
    assert!(rt; stand_at(disk.bytes(), 16, NEXT));
    assert!(rt; stand_at(disk.bytes(), 4112, ROOT));
}

/// How many calls read a byte.
fn readers(calls: &[Call], byte: usize) -> usize {
    calls
        .iter()
        .filter(|call| matches!(call, Call::Read(at, size) if *at <= byte && byte - *at < *size))
        .count()
}

/// How many calls ask the file's length.
fn askers(calls: &[Call]) -> usize {
    calls
        .iter()
        .filter(|call| matches!(call, Call::Length))
        .count()
}

/// The ends of the catalog, of the three records and of the tile.
const ENDS: &[usize] = &[
    24576, 24667, 12288, 12331, 16384, 16427, 20480, 20484, 28672, 28711,
];

#[test]
fn opening_with_open_gates_reads_each_byte_once_and_writes_none(rt: HostRuntime) {
    let file = stored(&rt, rt.alloc());
    let (disk, found) = opened(&rt, rt.alloc(), &file);
    assert!(rt; found == Ok((3, 3, 1)));
    assert!(rt; only_reads(disk.calls()));
    assert!(rt; askers(disk.calls()) == 1);
    for byte in 0..file.len() {
        assert!(rt; readers(disk.calls(), byte) <= 1, "byte {byte}");
    }
    for &byte in ENDS {
        assert!(rt; readers(disk.calls(), byte) == 1, "byte {byte}");
    }
}
