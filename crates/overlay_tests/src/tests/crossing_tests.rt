//! Tiles by the pass from node to node beside tiles by all pairs, at several caps, and what the pass
//! counts: on the worked inputs, on two combs, and on scattered rings round the border of two columns.
use crate::tests::rings::{combs, next, scattered};
use crate::tests::rows::check;
use crate::tests::testing::{
    ACROSS, BOW_TIE, CORNER, Corners, DIAMOND, LEFT_HALF, NEXT_TO_IT, NOTHING, SHIFTED, SQUARE,
    STRIP, TRIANGLE, TWICE, input_of,
};
use arrange::TileInput;
use std::alloc::Global;
use std::process::Abort;
use tile_build::{Tile, build, build_counted};
use tile_by_pairs::build_by_pairs;

/// How many pieces a tile holds.
fn size_of(tile: &Tile) -> usize {
    match tile {
        Tile::Pieces(pieces) => pieces.len(),
        Tile::Oversize => 0,
    }
}

/// Whether both calls of the pass give the tile by all pairs, by its ends, at a cap.
fn agree_at(rt: &impl Abort, alloc: Global, input: &TileInput, cap: usize) -> bool {
    let plain = build_by_pairs(alloc, input, cap).expect(rt, "memory");
    let counted = build_counted(alloc, input, cap).expect(rt, "memory");
    let built = build(alloc, input, cap).expect(rt, "memory");
    counted.tile.is_same(&plain) && built.is_same(&plain)
}

/// Whether they do at caps below the size of the tile, and at its size.
fn agree(rt: &impl Abort, alloc: Global, input: &TileInput) -> bool {
    let size = size_of(&build_by_pairs(alloc, input, usize::MAX).expect(rt, "memory"));
    agree_at(rt, alloc, input, 0)
        && agree_at(rt, alloc, input, size.saturating_sub(1))
        && agree_at(rt, alloc, input, size)
}

/// The layers A and B, a definition and a column.
const WORKED: &[(Corners, Corners, &str, u8)] = &[
    (SQUARE, SHIFTED, "A & B", 16),
    (ACROSS, NOTHING, "A", 15),
    (ACROSS, NOTHING, "A", 16),
    (TRIANGLE, STRIP, "A & B", 16),
    (SQUARE, NEXT_TO_IT, "A | B", 16),
    (BOW_TIE, NOTHING, "A", 16),
    (TWICE, NOTHING, "A", 16),
    (CORNER, NOTHING, "A", 31),
    (CORNER, NOTHING, "A", 32),
    (DIAMOND, NOTHING, "A", 15),
    (DIAMOND, NOTHING, "A", 16),
    (SQUARE, LEFT_HALF, "A & B", 16),
    (SQUARE, LEFT_HALF, "A ^ B", 16),
    (SQUARE, SHIFTED, "A & B", 17),
];

#[test]
fn the_pass_gives_the_tiles_by_all_pairs_of_the_worked_inputs(rt: HostRuntime) {
    for (row, &(first, second, definition, column)) in WORKED.iter().enumerate() {
        let input = input_of(&rt, rt.alloc(), first, second, definition, column);
        check(&rt, row, &agree(&rt, rt.alloc(), &input), &true);
    }
}

#[test]
fn the_pass_gives_the_tile_by_all_pairs_of_two_combs(rt: HostRuntime) {
    let input = combs(&rt, rt.alloc(), 128, 511);
    assert!(rt; agree(&rt, rt.alloc(), &input));
    // 255 sides cross 255, two rectangles cross at a corner of the grid, and each has four corners
    let counted = build_counted(rt.alloc(), &input, 131076).expect(&rt, "memory");
    check(&rt, 0, &counted.nodes, &66050);
    check(&rt, 0, &size_of(&counted.tile), &131076);
}

#[test]
fn the_pass_gives_the_tiles_by_all_pairs_of_200_scattered_inputs(rt: HostRuntime) {
    let mut seed = 1;
    for _ in 0..200 {
        seed = next(seed);
        // every second seed is even
        let column = if seed % 2 == 0 { 15 } else { 16 };
        let input = scattered(&rt, rt.alloc(), seed, -4, column);
        assert!(rt; agree(&rt, rt.alloc(), &input), "seed {seed}");
    }
}

/// The numbers of nodes, of the most tests (two a node), and of pieces.
const COUNTS: &[(Corners, Corners, &str, u8, u64, usize, usize)] = &[
    (SQUARE, SHIFTED, "A & B", 16, 10, 20, 4),
    (ACROSS, NOTHING, "A", 16, 4, 8, 3),
    (BOW_TIE, NOTHING, "A", 16, 5, 10, 6),
    (SQUARE, LEFT_HALF, "A & B", 16, 6, 12, 4),
    // no segment
    (SQUARE, SHIFTED, "A & B", 17, 0, 0, 0),
];

#[test]
fn nodes_pieces_and_tests_are_counted(rt: HostRuntime) {
    for (row, &(first, second, definition, column, nodes, tests, pieces)) in COUNTS
        .iter()
        .enumerate()
    {
        let input = input_of(&rt, rt.alloc(), first, second, definition, column);
        let counted = build_counted(rt.alloc(), &input, 65536).expect(&rt, "memory");
        check(&rt, row, &counted.nodes, &nodes);
        check(&rt, row, &(counted.tests.len() <= tests), &true);
        check(&rt, row, &size_of(&counted.tile), &pieces);
    }
}
