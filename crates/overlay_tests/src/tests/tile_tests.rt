//! Tiles by their calls: the cap, answers, copies, and which tiles are alike.
use crate::tests::rows::check;
use crate::tests::testing::{BOW_TIE, Corners, NOTHING, SHIFTED, SQUARE, TWICE, input_of};
use exact_point::QueryPoint;
use std::alloc::Global;
use std::process::Abort;
use tile_build::{Tile, build};

/// The region of the bow tie, by a left and a right triangle.
const TRIANGLES: Corners = &[
    &[(0, 0), (0, 4), (2, 2), (0, 0)],
    &[(4, 0), (4, 4), (2, 2), (4, 0)],
];

const NARROW: Corners = &[&[(0, 0), (9, 0), (9, 10), (0, 10), (0, 0)]];

/// The tile of one base layer in column 16.
fn tile_of(rt: &impl Abort, alloc: Global, corners: Corners, cap: usize) -> Tile {
    let input = input_of(rt, alloc, corners, NOTHING, "A", 16);
    build(alloc, &input, cap).expect(rt, "memory")
}

/// The query at (x / w, y / w).
fn query(rt: &impl Abort, x: i64, y: i64, w: i64) -> QueryPoint {
    QueryPoint::new(x, y, w).expect(rt, "in range")
}

#[test]
fn four_pieces_fit_a_cap_of_four_and_not_of_three(rt: HostRuntime) {
    let input = input_of(&rt, rt.alloc(), SQUARE, SHIFTED, "A & B", 16);
    for &(cap, want) in &[(3, None), (4, Some(4))] {
        let got = match build(rt.alloc(), &input, cap).expect(&rt, "memory") {
            Tile::Oversize => None,
            Tile::Pieces(pieces) => Some(pieces.len()),
        };
        check(&rt, cap, &got, &want);
    }
}

/// A layer, a query and the answer to it.
const ANSWERS: &[(Corners, (i64, i64, i64), bool)] = &[
    (SQUARE, (7, 7, 1), true),
    (SQUARE, (12, 2, 1), false),
    (SQUARE, (7, 12, 1), false),
    (BOW_TIE, (1, 4, 2), true),
    (BOW_TIE, (2, 3, 1), false),
];

#[test]
fn a_tile_and_its_copy_answer_by_parity(rt: HostRuntime) {
    for (row, &(corners, (x, y, w), want)) in ANSWERS.iter().enumerate() {
        let tile = tile_of(&rt, rt.alloc(), corners, 65536);
        let copy = tile.try_copy(rt.alloc()).expect(&rt, "memory");
        let point = query(&rt, x, y, w);
        check(&rt, row, &tile.answer(&point), &Some(want));
        check(&rt, row, &copy.answer(&point), &Some(want));
    }
}

/// Whether a tile that is held is like one that is built.
const PAIRS: &[(Corners, Corners, bool)] = &[
    (TRIANGLES, BOW_TIE, true),
    (BOW_TIE, TRIANGLES, true),
    (SQUARE, SQUARE, true),
    (SQUARE, NARROW, false),
    (SQUARE, BOW_TIE, false),
    (SQUARE, TWICE, false),
    (TWICE, SQUARE, false),
    (NOTHING, TWICE, true),
];

#[test]
fn tiles_are_alike_by_places_and_not_by_names(rt: HostRuntime) {
    for (row, &(held, built, want)) in PAIRS.iter().enumerate() {
        let held_tile = tile_of(&rt, rt.alloc(), held, 65536);
        let built_tile = tile_of(&rt, rt.alloc(), built, 65536);
        check(&rt, row, &held_tile.is_same(&built_tile), &want);
    }
}

#[test]
fn an_oversize_tile_is_like_another_alone_and_has_no_answer(rt: HostRuntime) {
    let few = tile_of(&rt, rt.alloc(), SQUARE, 4);
    let many = tile_of(&rt, rt.alloc(), SQUARE, 3);
    let copy = many.try_copy(rt.alloc()).expect(&rt, "memory");
    assert!(rt; !few.is_same(&many));
    assert!(rt; !many.is_same(&few));
    assert!(rt; many.is_same(&copy));
    assert!(rt; copy.answer(&query(&rt, 2, 2, 1)).is_none());
}
