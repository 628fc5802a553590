//! The edges of a tile as a version reports them that no worker builds tiles for.
use crate::tests::testing::{name_of, overlap, with_tile};
use std::alloc::Global;
use std::process::Abort;
use version_core::Answers;
use versions::Version;

/// The edges of I in column 16, where both squares are.
const EDGES: &[u8] = b"edges 4\n5 5 1 5 10 1\n5 5 1 10 5 1\n5 10 1 10 10 1\n10 5 1 10 10 1\n";

/// A layer with a column, and the number of the fault: no tile is finished.
const REFUSED: &[(&str, u64, u8)] = &[
    ("I", 16, 21),
    ("I", 0, 21),
    ("I", 32, 21),
    ("I", 33, 23),
    ("A", 16, 12),
    ("A", 33, 12),
    ("Z", 16, 10),
];

/// The number of the fault for which edges are refused, and 0 where they are reported.
fn refusal(rt: &impl Abort, alloc: Global, version: &Version, layer: &str, column: u64) -> u8 {
    match version.edges(alloc, &name_of(rt, alloc, layer), column) {
        Ok(_) => 0,
        Err(fault) => fault.code(),
    }
}

#[test]
fn a_version_without_workers_tells_that_its_tiles_are_pending(rt: HostRuntime) {
    let version = overlap(&rt, rt.alloc());
    for &(layer, column, fault) in REFUSED {
        let reported = refusal(&rt, rt.alloc(), &version, layer, column);
        assert!(rt; reported == fault, "{layer} {column}: {reported}");
    }
}

#[test]
fn a_tile_that_is_kept_is_reported_and_no_other(rt: HostRuntime) {
    let version = with_tile(&rt, rt.alloc());
    let name = name_of(&rt, rt.alloc(), "I");
    let text = version.edges(rt.alloc(), &name, 16).expect(&rt, "a text");
    assert!(rt; text.as_slice() == EDGES);
    assert!(rt; refusal(&rt, rt.alloc(), &version, "I", 15) == 21);
}
