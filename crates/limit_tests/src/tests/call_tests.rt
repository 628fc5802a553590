//! Calls that the program does not make: blocks planned for records, an image taken apart.
use crate::tests::testing::{overlap, with_tile};
use commit_plan::image::Image;
use extent_map::extent::Extent;
use extent_map::extents::Extents;
use extent_map::fault::ExtentFault;
use flush_core::imaging::image_of;
use std::alloc::Global;
use std::process::Abort;
use tile_build::Tile;
use versions::Version;

/// A first block and how many.
type Run = (u64, u64);

/// Extents that are taken, how many blocks there may be, lengths of records, and their runs or the number of the fault.
const PLANS: &[(&[Run], u64, &[u32], Result<&[Run], u8>)] = &[
    (&[(3, 1), (4, 1)], 6, &[44, 17], Ok(&[(2, 1), (5, 1)])),
    (&[(2, 1)], 100, &[4097, 0], Ok(&[(3, 2), (5, 1)])),
    (&[(3, 1), (4, 1)], 5, &[44, 17], Err(31)),
    (&[(2, 2), (3, 1)], 9, &[], Err(33)),
];

fn extents(rt: &impl Abort, alloc: Global, runs: &[Run]) -> Vec<Extent> {
    let mut list = Vec::new(alloc);
    for &(block, blocks) in runs {
        let extent = Extent::new(block, blocks).expect(rt, "an extent");
        list.push(extent).expect(rt, "memory");
    }
    list
}

fn planned(
    alloc: Global,
    taken: &[Extent],
    limit: u64,
    lengths: &[u32],
) -> Result<Vec<Extent>, ExtentFault> {
    Extents::of(alloc, taken, limit)?.plan(alloc, lengths)
}

/// Checks what comes of a row.
fn check_plan(rt: &impl Abort, got: Result<Vec<Extent>, ExtentFault>, want: Result<&[Extent], u8>) {
    match (got, want) {
        (Ok(runs), Ok(wanted)) => assert!(rt; runs.as_slice() == wanted),
        (Err(fault), Err(number)) => assert!(rt; fault.code() == number),
        _ => panic!(rt; "another answer"),
    }
}

#[test]
fn records_get_the_first_runs_that_are_free(rt: HostRuntime) {
    let alloc = rt.alloc();
    for &(taken, limit, lengths, want) in PLANS {
        let runs = extents(&rt, alloc, taken);
        let got = planned(alloc, &runs, limit, lengths);
        match want {
            Ok(list) => check_plan(&rt, got, Ok(&extents(&rt, alloc, list))),
            Err(number) => check_plan(&rt, got, Err(number)),
        }
    }
}

/// Checks that an image of a version's layers is taken apart into its number, those layers and no tile.
fn check_parts(rt: &impl Abort, alloc: Global, version: &Version) {
    let layers = version.layers().try_copy(alloc).expect(rt, "memory");
    let image = Image::new(alloc, 7, layers, Vec::new(alloc)).expect(rt, "memory");
    let (number, layers, tiles) = image.into_parts(alloc).expect(rt, "memory");
    assert!(rt; number == 7);
    assert!(rt; layers.list(alloc).expect(rt, "memory").as_slice() == LISTED);
    assert!(rt; tiles.is_empty());
}

/// The listing of A, B and I.
const LISTED: &[u8] =
    b"layers 3\nA MULTIPOLYGON (((0 0, 10 0, 10 10, 0 10, 0 0)))\nB MULTIPOLYGON (((5 5, 15 5, 15 15, 5 15, 5 5)))\nI = A & B\n";

#[test]
fn an_image_is_taken_apart_into_what_it_was_made_of(rt: HostRuntime) {
    check_parts(&rt, rt.alloc(), &overlap(&rt, rt.alloc()));
}

/// Checks that an image of a version is taken apart into its number and the one tile, of column 16 with four pieces.
fn check_tile(rt: &impl Abort, alloc: Global, version: &Version) {
    let image = image_of(alloc, version).expect(rt, "memory");
    let (number, _, tiles) = image.into_parts(alloc).expect(rt, "memory");
    assert!(rt; number == 3);
    match tiles.as_slice() {
        [(name, column, tile)] => {
            assert!(rt; name.bytes() == b"I".as_slice());
            assert!(rt; *column == 16);
            assert!(rt; matches!(tile, Tile::Pieces(pieces) if pieces.len() == 4));
        }
        _ => panic!(rt; "another number of tiles"),
    }
}

#[test]
fn an_image_of_a_version_is_taken_apart_into_its_tiles(rt: HostRuntime) {
    check_tile(&rt, rt.alloc(), &with_tile(&rt, rt.alloc()));
}
