//! Labels by the sweep beside labels by counting: on the worked inputs, on two combs that cross everywhere, and on
//! rings through points of a small square, of which many touch, stand upright or overlap.
use crate::tests::rings::{combs, next, scattered};
use crate::tests::rows::check;
use crate::tests::testing::{
    ACROSS, BOW_TIE, CORNER, Corners, DIAMOND, LEFT_HALF, NEXT_TO_IT, NOTHING, SHIFTED, SQUARE,
    STRIP, TRIANGLE, TWICE, input_of,
};
use arrange::{TileInput, pieces};
use std::alloc::Global;
use std::process::Abort;
use sweep_line::counting::label_by_count;
use sweep_line::label;
use sweep_line::labelled::Labelled;

/// Whether two lists of labels have the same sides throughout.
fn are_alike(swept: &[Labelled], counted: &[Labelled]) -> bool {
    swept.len() == counted.len()
        && swept
            .iter()
            .zip(counted)
            .all(|(s, c)| s.under == c.under && s.over == c.over)
}

/// Whether both ways label the pieces of an input alike.
fn both_agree(rt: &impl Abort, alloc: Global, input: &TileInput) -> bool {
    let found = pieces(alloc, input).expect(rt, "memory");
    let swept = label(alloc, input, found).expect(rt, "memory");
    let again = pieces(alloc, input).expect(rt, "memory");
    let counted = label_by_count(alloc, input, again).expect(rt, "memory");
    are_alike(&swept, &counted)
}

/// The layers A and B, and a column.
const WORKED: &[(Corners, Corners, u8)] = &[
    (SQUARE, SHIFTED, 16),
    (ACROSS, NOTHING, 15),
    (ACROSS, NOTHING, 16),
    (TRIANGLE, STRIP, 16),
    (SQUARE, NEXT_TO_IT, 16),
    (BOW_TIE, NOTHING, 16),
    (TWICE, NOTHING, 16),
    (CORNER, NOTHING, 31),
    (CORNER, NOTHING, 32),
    (DIAMOND, NOTHING, 15),
    (DIAMOND, NOTHING, 16),
    (SQUARE, LEFT_HALF, 16),
];

#[test]
fn the_sweep_agrees_with_counting_on_the_worked_inputs(rt: HostRuntime) {
    for (row, &(first, second, column)) in WORKED.iter().enumerate() {
        let input = input_of(&rt, rt.alloc(), first, second, "A ^ B", column);
        check(&rt, row, &both_agree(&rt, rt.alloc(), &input), &true);
    }
}

#[test]
fn the_sweep_agrees_with_counting_on_two_combs(rt: HostRuntime) {
    let input = combs(&rt, rt.alloc(), 32, 127);
    assert!(rt; both_agree(&rt, rt.alloc(), &input));
}

#[test]
fn the_sweep_agrees_with_counting_on_500_scattered_inputs(rt: HostRuntime) {
    let mut seed = 1;
    for _ in 0..500 {
        seed = next(seed);
        let input = scattered(&rt, rt.alloc(), seed, 0, 16);
        assert!(rt; both_agree(&rt, rt.alloc(), &input), "seed {seed}");
    }
}
