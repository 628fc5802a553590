//! Inputs of tiles, units, nodes, pieces and labels, worked by hand. Bit 0 of a mask is layer A, bit 1 is B.
use crate::tests::rows::{Place, check, lowest};
use crate::tests::testing::{
    ACROSS, BOW_TIE, CORNER, Corners, LEFT_HALF, NOTHING, SHIFTED, SQUARE, STRIP, TRIANGLE, TWICE,
    input_of,
};
use arrange::{TileInput, nodes_on, pieces, units};
use std::alloc::Global;
use std::process::Abort;
use sweep_line::counting::label_by_count;
use sweep_line::label;
use sweep_line::labelled::Labelled;

const BESIDE: Corners = &[&[(10, 2), (20, 2), (20, 8), (10, 8), (10, 2)]];

const TOUCHING: Corners = &[&[(10, 5), (20, 0), (20, 10), (10, 5)]];

const LEFT: Corners = &[&[(-10, 5), (0, 5), (0, 15), (-10, 15), (-10, 5)]];

/// How many segments have a point in the column.
const INPUTS: &[(Corners, u8, usize)] = &[
    (SQUARE, 16, 4),
    (SQUARE, 15, 0),
    (LEFT, 16, 3),
    (SQUARE, 17, 0),
    (ACROSS, 15, 3),
    (ACROSS, 16, 3),
    (CORNER, 31, 3),
    (CORNER, 32, 3),
];

#[test]
fn an_input_has_the_segments_with_a_point_in_its_column(rt: HostRuntime) {
    for (row, &(first, column, want)) in INPUTS.iter().enumerate() {
        let input = input_of(&rt, rt.alloc(), first, NOTHING, "A & B", column);
        check(&rt, row, &input.marked().len(), &want);
        check(&rt, row, &input.steps().bases(), &2);
    }
}

#[test]
fn a_copy_is_equal_and_another_column_is_not(rt: HostRuntime) {
    let input = input_of(&rt, rt.alloc(), SQUARE, SHIFTED, "A & B", 16);
    let copy = input.try_copy(rt.alloc()).expect(&rt, "memory");
    let other = input_of(&rt, rt.alloc(), SQUARE, SHIFTED, "A & B", 17);
    assert!(rt; copy == input);
    assert!(rt; other != input);
}

/// How many units have each of four masks.
const UNITS: &[(Corners, Corners, u8, [usize; 4])] = &[
    (SQUARE, SHIFTED, 16, [0, 4, 4, 0]),
    (SQUARE, LEFT_HALF, 16, [0, 3, 1, 3]),
    (SQUARE, SQUARE, 16, [0, 0, 0, 4]),
    (TWICE, NOTHING, 16, [4, 0, 0, 0]),
    // ends of the second cut a side of the first
    (SQUARE, BESIDE, 16, [0, 5, 3, 1]),
    // a corner that touches a side does not cut it
    (SQUARE, TOUCHING, 16, [0, 4, 3, 0]),
    (SQUARE, SHIFTED, 17, [0, 0, 0, 0]),
];

/// Counts one more where there is a place for it.
fn count(counts: &mut [usize; 4], at: usize) {
    if at < 4 {
        counts[at] = counts[at].saturating_add(1);
    }
}

#[test]
fn units_end_at_the_ends_of_collinear_segments(rt: HostRuntime) {
    for (row, &(first, second, column, want)) in UNITS.iter().enumerate() {
        let input = input_of(&rt, rt.alloc(), first, second, "A & B", column);
        let mut counts = [0; 4];
        for unit in &units(rt.alloc(), &input).expect(&rt, "memory") {
            count(&mut counts, unit.mask as usize);
        }
        check(&rt, row, &counts, &want);
    }
}

#[test]
fn the_nodes_of_two_crossing_squares_are_counted_by_unit(rt: HostRuntime) {
    let input = input_of(&rt, rt.alloc(), SQUARE, SHIFTED, "A & B", 16);
    let mut counts = [0; 4];
    for unit in &units(rt.alloc(), &input).expect(&rt, "memory") {
        let nodes = nodes_on(rt.alloc(), &unit.seg, &input).expect(&rt, "memory");
        count(&mut counts, nodes.len());
    }
    // four sides are crossed once
    check(&rt, 0, &counts, &[0, 0, 4, 4]);
}

/// How many pieces begin in the column.
const PIECES: &[(Corners, Corners, u8, usize)] = &[
    (SQUARE, SHIFTED, 16, 12),
    (ACROSS, NOTHING, 15, 3),
    (ACROSS, NOTHING, 16, 3),
    (BOW_TIE, NOTHING, 16, 6),
    (SQUARE, LEFT_HALF, 16, 7),
    (TWICE, NOTHING, 16, 4),
    (CORNER, NOTHING, 31, 3),
    (CORNER, NOTHING, 32, 1),
    (TRIANGLE, STRIP, 16, 15),
    (SQUARE, SHIFTED, 17, 0),
];

#[test]
fn each_piece_that_begins_in_the_column_is_found_once(rt: HostRuntime) {
    for (row, &(first, second, column, want)) in PIECES.iter().enumerate() {
        let input = input_of(&rt, rt.alloc(), first, second, "A & B", column);
        let found = pieces(rt.alloc(), &input).expect(&rt, "memory");
        check(&rt, row, &found.len(), &want);
    }
}

/// The left end of a piece, its right end, and the masks under and over it. Of a vertical piece `under` is
/// just right.
type Row = (Place, Place, u32, u32);

/// The pieces of a square and one shifted by (5, 5), by left end and direction.
const SQUARES: &[Row] = &[
    ((0, 0, 1), (10, 0, 1), 0, 1),
    ((0, 0, 1), (0, 10, 1), 1, 0),
    ((0, 10, 1), (5, 10, 1), 1, 0),
    ((5, 5, 1), (10, 5, 1), 1, 3),
    ((5, 5, 1), (5, 10, 1), 3, 1),
    ((5, 10, 1), (10, 10, 1), 3, 2),
    ((5, 10, 1), (5, 15, 1), 2, 0),
    ((5, 15, 1), (15, 15, 1), 2, 0),
    ((10, 0, 1), (10, 5, 1), 0, 1),
    ((10, 5, 1), (15, 5, 1), 0, 2),
    ((10, 5, 1), (10, 10, 1), 2, 3),
    ((15, 5, 1), (15, 15, 1), 0, 2),
];

/// The pieces of a triangle and a strip.
const CUT_TRIANGLE: &[Row] = &[
    ((0, 0, 1), (3, 1, 3), 0, 1),
    ((0, 0, 1), (0, 2, 1), 1, 0),
    ((0, 2, 1), (3, 5, 3), 1, 0),
    ((1, -1, 1), (2, -1, 1), 0, 2),
    ((1, -1, 1), (3, 1, 3), 2, 0),
    ((3, 1, 3), (6, 2, 3), 2, 3),
    ((3, 1, 3), (3, 5, 3), 3, 1),
    ((3, 5, 3), (6, 4, 3), 3, 2),
    ((3, 5, 3), (1, 3, 1), 2, 0),
    ((1, 3, 1), (2, 3, 1), 2, 0),
    ((2, -1, 1), (6, 2, 3), 0, 2),
    ((6, 2, 3), (3, 1, 1), 0, 1),
    ((6, 2, 3), (6, 4, 3), 1, 3),
    ((6, 4, 3), (3, 1, 1), 1, 0),
    ((6, 4, 3), (2, 3, 1), 0, 2),
];

/// A piece and its labels as a row.
fn row_of(label: &Labelled) -> Option<Row> {
    let from = lowest(label.piece.from.point())?;
    let to = lowest(label.piece.to.point())?;
    Some((from, to, label.under, label.over))
}

/// Checks labels against rows.
fn check_labels(rt: &impl Abort, labels: &[Labelled], rows: &[Row]) {
    check(rt, rows.len(), &labels.len(), &rows.len());
    for (row, (got, want)) in labels.iter().zip(rows).enumerate() {
        check(rt, row, &row_of(got), &Some(*want));
    }
}

/// Checks the labels of the pieces of an input, by the sweep and by counting.
fn check_both(rt: &impl Abort, alloc: Global, input: &TileInput, rows: &[Row]) {
    let found = pieces(alloc, input).expect(rt, "memory");
    check_labels(rt, &label(alloc, input, found).expect(rt, "memory"), rows);
    let again = pieces(alloc, input).expect(rt, "memory");
    let counted = label_by_count(alloc, input, again).expect(rt, "memory");
    check_labels(rt, &counted, rows);
}

#[test]
fn pieces_stand_in_order_with_the_layers_on_both_sides(rt: HostRuntime) {
    let squares = input_of(&rt, rt.alloc(), SQUARE, SHIFTED, "A & B", 16);
    check_both(&rt, rt.alloc(), &squares, SQUARES);
    let triangle = input_of(&rt, rt.alloc(), TRIANGLE, STRIP, "A & B", 16);
    check_both(&rt, rt.alloc(), &triangle, CUT_TRIANGLE);
}
