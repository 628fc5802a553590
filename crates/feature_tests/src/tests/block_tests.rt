//! The blocks of docs/FORMAT.md are read as that page says of them.
use crate::tests::vectors::{CELLS, Digits, FAR, LOCATE, PAIR, bytes_of};
use block_reading::{Block, Core, FarPoint, Head, Job, Shapes, read_block};
use std::alloc::Global;
use std::process::Abort;

/// The length, the kind of the jobs and the flags; features, rings, points, jobs, numbers of 4 bytes that the jobs take,
/// bytes of the expression, and layers.
type Counts = (u64, [u32; 9]);

/// Points, x and y each.
type Points = &'static [(i64, i64)];

/// A block, its counts, how many rings each feature has, how many points each ring, and the points.
const FEATURES: &[(Digits, Counts, &[u32], &[u32], Points)] = &[
    (
        PAIR,
        (212, [0, 1, 2, 2, 8, 1, 2, 0, 0]),
        &[1, 1],
        &[4, 4],
        &[
            (0, 0),
            (4, 0),
            (0, 4),
            (0, 0),
            (1, 1),
            (5, 1),
            (1, 5),
            (1, 1),
        ],
    ),
    (
        CELLS,
        (179, [1, 0, 1, 1, 4, 1, 11, 3, 1]),
        &[1],
        &[4],
        &[(0, 0), (4, 0), (0, 4), (0, 0)],
    ),
    (
        LOCATE,
        (164, [2, 0, 1, 1, 4, 1, 8, 0, 0]),
        &[1],
        &[4],
        &[(0, 0), (4, 0), (0, 4), (0, 0)],
    ),
    (
        FAR,
        (140, [0, 0, 1, 1, 4, 1, 2, 0, 0]),
        &[1],
        &[4],
        &[
            (-2199023255552, -2199023255552),
            (2199023255552, -2199023255552),
            (2199023255552, 2199023255552),
            (-2199023255552, -2199023255552),
        ],
    ),
];

/// The block that lines of digits spell.
fn read(rt: &impl Abort, alloc: Global, digits: Digits) -> Block {
    let Ok(block) = read_block(alloc, &bytes_of(rt, alloc, digits)) else {
        panic!(rt; "no block, or no memory")
    };
    block
}

/// Whether a head is of version 1, asks for 4,096 steps a pass, and has these counts.
fn has_counts(head: &Head, want: Counts) -> bool {
    let counts = [
        head.kind,
        head.flags,
        head.features,
        head.rings,
        head.points,
        head.jobs,
        head.job_words,
        head.expression,
        head.layers,
    ];
    head.version == 1 && head.limit == 4096 && head.length == want.0 && counts == want.1
}

/// Whether points are these.
fn are_points(points: &[FarPoint], want: Points) -> bool {
    if points.len() != want.len() {
        return false;
    }
    points
        .iter()
        .zip(want)
        .all(|(point, &(x, y))| point.x == x && point.y == y)
}

/// Checks how many rings and points the features have, and the points.
fn check_shapes(rt: &impl Abort, shapes: &Shapes, rings: &[u32], sizes: &[u32], want: Points) {
    assert!(rt; shapes.ring_counts() == rings);
    assert!(rt; shapes.point_counts() == sizes);
    assert!(rt; are_points(shapes.points(), want));
}

#[test]
fn blocks_have_the_counts_and_the_features_that_their_bytes_say(rt: HostRuntime) {
    for &(digits, counts, rings, sizes, points) in FEATURES {
        let block = read(&rt, rt.alloc(), digits);
        assert!(rt; has_counts(block.head(), counts));
        check_shapes(&rt, block.shapes(), rings, sizes, points);
    }
}

/// Blocks of one pair, and the features that it names.
const PAIRS: &[(Digits, u32, u32)] = &[(PAIR, 0, 1), (FAR, 0, 0)];

#[test]
fn a_pair_names_its_two_features_in_order(rt: HostRuntime) {
    for &(digits, first, second) in PAIRS {
        let block = read(&rt, rt.alloc(), digits);
        match block.jobs() {
            [Job::Pair(a, b)] => assert!(rt; *a == first && *b == second),
            _ => panic!(rt; "another job"),
        }
        assert!(rt; block.expression().is_empty());
    }
}

/// Whether a core is that from (0, 0) to (4, 4).
fn is_core(core: &Core) -> bool {
    core.low_x == 0 && core.high_x == 4 && core.low_y == 0 && core.high_y == 4
}

#[test]
fn cells_have_their_core_their_members_and_the_expression(rt: HostRuntime) {
    let block = read(&rt, rt.alloc(), CELLS);
    match block.jobs() {
        [Job::Cells(core, members)] => {
            assert!(rt; is_core(core));
            assert!(rt; matches!(members.members(), [one] if one.feature == 0 && one.layer == 0));
        }
        _ => panic!(rt; "another job"),
    }
    assert!(rt; block.expression() == b"Laa".as_slice());
}

#[test]
fn a_point_to_be_located_is_one_half_and_one_half(rt: HostRuntime) {
    let block = read(&rt, rt.alloc(), LOCATE);
    match block.jobs() {
        [Job::Locate(feature, queries)] => {
            assert!(rt; *feature == 0);
            assert!(rt; matches!(queries.points(), [p] if p.x == 1 && p.y == 1 && p.w == 2));
        }
        _ => panic!(rt; "another job"),
    }
    assert!(rt; block.expression().is_empty());
}
