//! Versions by their calls: pending tiles and late results.
use crate::tests::edition::Edition;
use crate::tests::rows::check;
use crate::tests::testing::{Change, Corners, OVERLAP, SHIFTED, SQUARE, layers_of};
use layer_expr::name::Name;
use std::alloc::Global;
use std::process::Abort;
use tile_build::Built;
use versions::Version;

const SMALLER: Corners = &[&[(0, 0), (9, 0), (9, 9), (0, 9), (0, 0)]];

const TWO_SQUARES: Corners = &[
    &[(0, 0), (10, 0), (10, 10), (0, 10), (0, 0)],
    &[(-20, 0), (-10, 0), (-10, 10), (-20, 10), (-20, 0)],
];

const LEFT_ONE_MOVED: Corners = &[
    &[(0, 0), (10, 0), (10, 10), (0, 10), (0, 0)],
    &[(-21, 0), (-10, 0), (-10, 10), (-21, 10), (-21, 0)],
];

/// Checks that each entry of a list is of I, and in the columns from 0 on.
fn check_columns(rt: &impl Abort, list: &[(Name, u8)]) {
    for (row, (name, column)) in list.iter().enumerate() {
        assert!(rt; name.bytes() == b"I".as_slice(), "row {row}");
        check(rt, row, &usize::from(*column), &row);
    }
}

#[test]
fn a_new_layer_has_all_tiles_pending(rt: HostRuntime) {
    let edition = Edition::after_all(&rt, rt.alloc(), OVERLAP);
    let list = edition.version().pending(rt.alloc()).expect(&rt, "memory");
    assert!(rt; list.len() == 33);
    check_columns(&rt, &list);
}

/// The tile of I in column 16, and a version in which A has changed since.
fn late_tile(rt: &impl Abort, alloc: Global) -> (Built, Edition) {
    let edition = Edition::after_all(rt, alloc, OVERLAP);
    let late = edition.built(rt, alloc, "I", 16);
    (late, edition.after(rt, alloc, &Change::Put("A", SMALLER)))
}

/// Whether the tile of I in column 16 from the present layers is kept.
fn is_fresh_kept(rt: &impl Abort, alloc: Global, edition: &Edition) -> bool {
    let fresh = edition.built(rt, alloc, "I", 16);
    edition.finish(rt, alloc, "I", fresh).is_some()
}

#[test]
fn a_late_result_is_stale_and_a_fresh_one_is_kept(rt: HostRuntime) {
    let (late, changed) = late_tile(&rt, rt.alloc());
    assert!(rt; changed.finish(&rt, rt.alloc(), "I", late).is_none());
    assert!(rt; is_fresh_kept(&rt, rt.alloc(), &changed));
}

/// A number that is reported of version 3, and the durable number then.
const REPORTS: &[(u64, u64)] = &[(0, 0), (2, 2), (3, 3), (4, 0)];

#[test]
fn a_report_raises_the_durable_number_up_to_the_version(rt: HostRuntime) {
    let edition = Edition::after_all(&rt, rt.alloc(), OVERLAP);
    for (row, &(number, want)) in REPORTS.iter().enumerate() {
        let reported = edition.durable_to(&rt, rt.alloc(), number);
        check(&rt, row, &reported, &want);
    }
}

/// Two squares as M, and N = M.
const TWO: &[Change] = &[Change::Put("M", TWO_SQUARES), Change::Define("N", "M")];

/// The same with all tiles of N.
fn two_squares_built(rt: &impl Abort, alloc: Global) -> Edition {
    let mut edition = Edition::after_all(rt, alloc, TWO);
    for column in 0..33 {
        edition = edition.with_tile(rt, alloc, "N", column);
    }
    edition
}

/// How many tiles are pending, and the column of the first.
type Pending = (usize, Option<u8>);

/// The column of the first entry of a list.
fn first_column(list: &[(Name, u8)]) -> Option<u8> {
    let (_, column) = list.first()?;
    Some(*column)
}

/// Compares what is pending after a row with what the row wants.
fn check_pending(rt: &impl Abort, alloc: Global, version: &Version, row: usize, want: &Pending) {
    let list = version.pending(alloc).expect(rt, "memory");
    check(rt, row, &(list.len(), first_column(&list)), want);
}

/// Changes after which all tiles of N, or that of column 15, are pending, one after another.
const CHANGES: &[(Change, Pending)] = &[
    (Change::Put("M", LEFT_ONE_MOVED), (1, Some(15))),
    (Change::Define("N", "M"), (1, Some(15))),
    (Change::Define("N", "M & M"), (33, Some(0))),
];

#[test]
fn a_put_that_changes_one_column_leaves_the_others_built(rt: HostRuntime) {
    let mut edition = two_squares_built(&rt, rt.alloc());
    check_pending(&rt, rt.alloc(), edition.version(), 0, &(0, None));
    for (row, (change, want)) in CHANGES.iter().enumerate() {
        edition = edition.after(&rt, rt.alloc(), change);
        check_pending(&rt, rt.alloc(), edition.version(), row, want);
    }
}

#[test]
fn a_layer_is_built_where_all_its_tiles_are_finished(rt: HostRuntime) {
    let built = two_squares_built(&rt, rt.alloc());
    assert!(rt; built.is_built(&rt, rt.alloc(), "N"));
    let moved = built.after(&rt, rt.alloc(), &Change::Put("M", LEFT_ONE_MOVED));
    assert!(rt; !moved.is_built(&rt, rt.alloc(), "N"));
}

#[test]
fn a_tile_is_kept_once_while_the_caller_has_it(rt: HostRuntime) {
    let edition = Edition::after_all(&rt, rt.alloc(), OVERLAP);
    let tile = edition.built(&rt, rt.alloc(), "I", 16);
    let kept = edition.finish_with(&rt, rt.alloc(), "I", &tile);
    check_kept(&rt, rt.alloc(), kept, &tile);
}

/// Checks that there is a version with the tile of I in column 16, which does not keep it once more.
fn check_kept(rt: &impl Abort, alloc: Global, kept: Option<Edition>, tile: &Built) {
    let Some(edition) = kept else {
        panic!(rt; "not kept");
    };
    assert!(rt; edition.has_tile(rt, alloc, "I", 16));
    assert!(rt; edition.finish_with(rt, alloc, "I", tile).is_none());
}

#[test]
fn a_restored_version_has_its_number_and_layers_and_is_durable(rt: HostRuntime) {
    let layers = layers_of(&rt, rt.alloc(), SQUARE, SHIFTED, "A & B");
    let listed = layers.list(rt.alloc()).expect(&rt, "memory");
    let version = Version::restore(rt.alloc(), 5, layers, Vec::new(rt.alloc()));
    let restored = Edition::new(version.expect(&rt, "restored"));
    check_restored(&rt, rt.alloc(), restored.version(), &listed);
}

/// Checks that a version has the number 5, all of it durable, and these layers without tiles.
fn check_restored(rt: &impl Abort, alloc: Global, version: &Version, listed: &[u8]) {
    assert!(rt; version.number() == 5 && version.durable() == 5);
    let list = version.layers().list(alloc).expect(rt, "memory");
    assert!(rt; list.as_slice() == listed);
    check_pending(rt, alloc, version, 0, &(33, Some(0)));
}
