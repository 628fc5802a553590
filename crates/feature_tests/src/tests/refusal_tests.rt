//! Blocks with one byte changed are refused by the number, and with the job, that docs/FORMAT.md says.
use crate::tests::vectors::{CELLS, Digits, FAR, LOCATE, PAIR, bytes_of};
use block_reading::{ReadFault, read_block};
use std::alloc::Global;
use std::process::Abort;

/// A block, the place and the new value of a byte, the number of the refusal and the job that it names.
const CHANGED: &[(Digits, usize, u8, u16, Option<usize>)] = &[
    // the length, more and less than there are
    (FAR, 0, 141, 60, None),
    (FAR, 0, 139, 63, None),
    // the magic and the version
    (FAR, 8, 80, 61, None),
    (FAR, 12, 2, 62, None),
    // one feature more
    (FAR, 28, 2, 64, None),
    // a fourth kind, a third flag
    (FAR, 16, 3, 65, None),
    (FAR, 20, 4, 66, None),
    // rings of the feature, points of the ring
    (FAR, 56, 2, 67, None),
    (FAR, 60, 5, 68, None),
    // the x of the second point is 2^41 + 1
    (FAR, 80, 1, 69, None),
    // the end mark
    (FAR, 139, 70, 70, None),
    // two queries where there is one, and none
    (LOCATE, 132, 2, 71, Some(0)),
    (LOCATE, 132, 0, 72, None),
    // a core from x = 5 to x = 4
    (CELLS, 128, 5, 73, Some(0)),
    // w is 0
    (LOCATE, 152, 0, 74, Some(0)),
    // a third feature, a second layer
    (PAIR, 204, 2, 75, Some(0)),
    (CELLS, 168, 1, 75, Some(0)),
];

/// The bytes of a block with one of them changed.
fn changed(rt: &impl Abort, alloc: Global, digits: Digits, at: usize, byte: u8) -> Vec<u8> {
    let mut bytes = bytes_of(rt, alloc, digits);
    assert!(rt; at < bytes.len());
    bytes[at] = byte;
    bytes
}

/// The number of a refusal, and the job that it names.
fn refusal(rt: &impl Abort, alloc: Global, bytes: &[u8]) -> (u16, Option<usize>) {
    match read_block(alloc, bytes) {
        Err(ReadFault::Refused(fault)) => (fault.code(), fault.job()),
        Err(ReadFault::OutOfMemory) => panic!(rt; "memory"),
        Ok(_) => panic!(rt; "a block"),
    }
}

#[test]
fn a_changed_byte_is_refused_by_its_number(rt: HostRuntime) {
    for &(digits, at, byte, code, job) in CHANGED {
        let bytes = changed(&rt, rt.alloc(), digits, at, byte);
        assert!(rt;
            refusal(&rt, rt.alloc(), &bytes) == (code, job),
            "byte {at} as {byte}"
        );
    }
}
