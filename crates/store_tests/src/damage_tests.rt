//! Files with one thing wrong, and with several: the first of them is reported, and nothing is written.
use crate::testing::{only_reads, opened, put, stored};
use commit_plan::fault::StoreFault;
use std::alloc::Global;
use std::process::Abort;

/// Bytes in the place of others, and what the file is said to be then: the fault, and its code or 0.
type Case = (usize, &'static [u8], u8, u8);

/// The first byte of slot 1.
const SLOT: usize = 4096;

/// Where the catalog, the records of A and I and the tile begin.
const CATALOG: usize = 24576;

const RECORD: usize = 12288;

const DEFINITION: usize = 20480;

const TILE: usize = 28672;

/// One thing wrong in each.
const CASES: &[Case] = &[
    // Another magic, in either slot.
    (16, b"X", 32, 0),
    (SLOT + 23, b"X", 32, 0),
    // Another format; the old one in the older root, which is not looked at further, and
    // over a catalog of the present one.
    (27, &[0], 33, 1),
    (27, &[3], 33, 1),
    (SLOT + 24, &[1], 33, 1),
    (27, &[1], 0, 0),
    (SLOT + 27, &[1], 33, 4),
    // A sequence above 2^62, one of the other slot, and a version above 2^62.
    (28, &[64, 0, 0, 0, 0, 0, 0, 2], 33, 2),
    (35, &[1], 33, 2),
    (SLOT + 35, &[2], 33, 2),
    (SLOT + 36, &[64, 0, 0, 0, 0, 0, 0, 1], 33, 2),
    // A catalog in a slot, after the file, far after it, and over its end.
    (SLOT + 51, &[1], 33, 3),
    (SLOT + 51, &[8], 33, 3),
    (SLOT + 44, &[255; 12], 33, 3),
    (SLOT + 52, &[0, 0, 32, 1], 33, 3),
    // A layer too many, another kind, another state, and a length that is not used up.
    (CATALOG, &[0, 4], 33, 4),
    (CATALOG + 4, &[2], 33, 4),
    (CATALOG + 47, &[2], 33, 4),
    (SLOT + 55, &[91], 33, 4),
    (SLOT + 55, &[93], 33, 4),
    // A record in a slot, one after the file, one over its end, and a tile after it.
    (CATALOG + 12, &[1], 33, 5),
    (CATALOG + 42, &[8], 33, 5),
    (CATALOG + 13, &[255; 4], 33, 5),
    (CATALOG + 87, &[8], 33, 5),
    // A ring too many, a coordinate out of range, an open ring, a length that is not used up.
    (RECORD, &[0, 2], 33, 6),
    (RECORD + 12, &[0, 16, 0, 1], 33, 6),
    (RECORD + 40, &[0, 0, 0, 1], 33, 6),
    (CATALOG + 16, &[45], 33, 6),
    // Another spelling, and no expression.
    (DEFINITION, b"(A&B)", 33, 6),
    (DEFINITION, b"A & &", 33, 6),
    // An equal name, no name, a layer that comes later, and one that is nowhere.
    (CATALOG + 18, b"A", 33, 7),
    (CATALOG + 18, b"9", 33, 7),
    (DEFINITION, b"A & I", 33, 7),
    (DEFINITION, b"Z & B", 33, 7),
    // Another form, another column, a piece too many, one that goes back, a length that is not used up.
    (TILE, &[2], 33, 8),
    (TILE + 1, &[31], 33, 8),
    (TILE + 5, &[2], 33, 8),
    (TILE + 28, &[16, 0, 0], 33, 8),
    (CATALOG + 91, &[41], 33, 8),
    // Two records in one block.
    (CATALOG + 27, &[3], 33, 9),
];

/// The same file with one thing more wrong each time: each comes before all those above it.
const GROWING: &[Case] = &[
    (CATALOG + 27, &[3], 33, 9),
    (TILE, &[2], 33, 8),
    (CATALOG + 87, &[8], 33, 5),
    (CATALOG + 33, b"A", 33, 7),
    (DEFINITION, b"(A&B)", 33, 6),
    (CATALOG + 42, &[8], 33, 5),
    (CATALOG + 18, b"A", 33, 7),
    (RECORD, &[0, 2], 33, 6),
    (CATALOG + 12, &[1], 33, 5),
    (CATALOG + 4, &[2], 33, 4),
    (SLOT + 51, &[1], 33, 3),
    (SLOT + 35, &[2], 33, 2),
    (SLOT + 27, &[3], 33, 1),
    (35, &[1], 33, 2),
    (27, &[3], 33, 1),
    (SLOT + 16, b"X", 32, 0),
];

/// The number of a fault, and its code or 0.
fn numbers(fault: StoreFault) -> (u8, u8) {
    match fault {
        StoreFault::Damaged(damage) => (fault.code(), damage.code().unwrap_or(0)),
        _ => (fault.code(), 0),
    }
}

/// Why a file of these bytes is refused, once it is seen that nothing was written.
fn refusal(rt: &impl Abort, alloc: Global, bytes: &[u8]) -> (u8, u8) {
    let (disk, found) = opened(rt, alloc, bytes);
    assert!(rt; only_reads(disk.calls()));
    match found {
        Ok(_) => (0, 0),
        Err(fault) => numbers(fault),
    }
}

/// Checks that a file is found to be what a case says.
fn check(rt: &impl Abort, alloc: Global, file: &[u8], case: Case) {
    let (at, _, fault, code) = case;
    assert_eq!(rt; refusal(rt, alloc, file), (fault, code), "at {at}");
}

/// A file with the bytes of a case put in their place.
fn changed(rt: &impl Abort, alloc: Global, whole: &[u8], case: Case) -> Vec<u8> {
    let mut file = whole.to_vec(alloc).expect(rt, "memory");
    put(&mut file, case.0, case.1);
    file
}

#[test]
fn each_damage_has_its_number(rt: HostRuntime) {
    let alloc = rt.alloc();
    let whole = stored(&rt, alloc);
    check(&rt, alloc, &whole, (0, &[], 0, 0));
    for &case in CASES {
        check(&rt, alloc, &changed(&rt, alloc, &whole, case), case);
    }
}

#[test]
fn of_several_damages_the_first_is_reported(rt: HostRuntime) {
    let alloc = rt.alloc();
    let mut file = stored(&rt, alloc);
    for &case in GROWING {
        put(&mut file, case.0, case.1);
        check(&rt, alloc, &file, case);
    }
}
