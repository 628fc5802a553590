//! Limits of blocks, and damaged files.
use crate::testing::{committed, created, image_of_a, made, opened, stand_at};
use commit_plan::fault::StoreFault;
use store_terms::damage::Damage;

/// The base record of the square A, at its block.
const RECORD: &[u8] = &[
    0, 1, 0, 5, 0, 0, 0, 0, 0, 0, 0, 0, 0, 0, 0, 10, 0, 0, 0, 0, 0, 0, 0, 10, 0, 0, 0, 10, 0, 0, 0,
    0, 0, 0, 0, 10, 0, 0, 0, 0, 0, 0, 0, 0,
];

/// The catalog that lists A alone, its record in block 3.
const CATALOG: &[u8] = &[0, 1, 1, 65, 0, 0, 0, 0, 0, 0, 0, 0, 3, 0, 0, 0, 44];

/// The first bytes of a file, or all of it where it is no longer.
fn front_of(bytes: &[u8], size: usize) -> &[u8] {
    if size < bytes.len() {
        &bytes[..size]
    } else {
        bytes
    }
}

/// A file, the most blocks, and the number of the fault.
const NEW: &[(&[u8], u32, Option<u8>)] = &[(&[], 2, Some(31)), (&[0], 3, Some(34)), (&[], 3, None)];

#[test]
fn a_new_store_asks_for_an_empty_file_and_three_blocks(rt: HostRuntime) {
    for &(bytes, limit, code) in NEW {
        let fault = match created(&rt, rt.alloc(), bytes, limit) {
            Ok(_) => None,
            Err((_, code)) => Some(code),
        };
        assert!(rt; fault == code, "at most {limit} blocks");
    }
}

#[test]
fn four_blocks_are_too_few_for_a_layer(rt: HostRuntime) {
    let alloc = rt.alloc();
    let mut store = made(&rt, created(&rt, alloc, &[], 4));
    let refused = store.begin(&rt, alloc, image_of_a(&rt, alloc));
    assert!(rt; matches!(refused, Err(StoreFault::Full)));
    assert!(rt; !store.busy());
    assert_eq!(rt; store.into_disk().bytes().len(), 12288);
}

#[test]
fn a_layer_and_its_catalog_take_two_blocks(rt: HostRuntime) {
    let alloc = rt.alloc();
    let disk = committed(&rt, alloc);
    assert_eq!(rt; disk.calls().len(), 13);
    let bytes = disk.bytes();
    assert_eq!(rt; bytes.len(), 20480);
    assert!(rt; stand_at(bytes, 12288, RECORD));
    assert!(rt; stand_at(bytes, 16384, CATALOG));
    let (_, cut) = opened(&rt, alloc, front_of(bytes, 16384));
    assert!(rt; cut == Err(StoreFault::Damaged(Damage::CatalogPlace)));
    let (_, whole) = opened(&rt, alloc, bytes);
    assert!(rt; whole == Ok((1, 1, 0)));
}

#[test]
fn an_empty_file_is_no_store(rt: HostRuntime) {
    let (_, empty) = opened(&rt, rt.alloc(), &[]);
    assert!(rt; empty == Err(StoreFault::Damaged(Damage::NotAStore)));
}
