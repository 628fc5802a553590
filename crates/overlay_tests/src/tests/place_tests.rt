//! Exact places, worked by hand and with fractions of Python.
use crate::tests::rows::{Place, check, lowest};
use exact_point::side::side;
use exact_point::{HPoint, PointFault, PointName, QueryPoint, below, below_middle, cross_of, on};
use plane_base::{Pt, Seg};
use std::cmp::Ordering;
use std::process::Abort;

type Ends = (i64, i64, i64, i64);

/// Three numbers of a query.
type Numbers = (i64, i64, i64);

/// Two segments, for the place where they cross.
type Crossing = (Ends, Ends);

/// From corner to corner of all places.
const RISING: Ends = (-1048576, -1048576, 1048576, 1048576);

const FALLING: Ends = (-1048576, 1048576, 1048576, -1048576);

const CENTRE: Crossing = (RISING, FALLING);

const UPPER_LEFT: Crossing = (FALLING, (-1048576, -1048576, -1048576, 1048576));

const LOWER_RIGHT: Crossing = (FALLING, (1048575, -1048576, 1048576, 1048576));

const LOWER_RIGHT_IN: Crossing = (FALLING, (1048574, -1048576, 1048576, 1048576));

const LEFT: Crossing = (FALLING, (-1048576, -1048576, -1048575, 1048576));

const LEFT_IN: Crossing = (FALLING, (-1048576, -1048576, -1048574, 1048576));

const RIGHT_MIRRORED: Crossing = (FALLING, (1048575, -1048576, 1048576, 1048575));

const LEFT_MIRRORED: Crossing = (FALLING, (-1048576, -1048575, -1048575, 1048576));

/// The point with these coordinates.
fn at(rt: &impl Abort, x: i64, y: i64) -> Pt {
    Pt::new(x, y).expect(rt, "in range")
}

/// The segment between the first two numbers and the last two.
fn seg(rt: &impl Abort, ends: Ends) -> Seg {
    Seg::of(at(rt, ends.0, ends.1), at(rt, ends.2, ends.3)).expect(rt, "two points")
}

/// The point with these three numbers.
fn point(rt: &impl Abort, p: Numbers) -> HPoint {
    QueryPoint::new(p.0, p.1, p.2)
        .expect(rt, "in range")
        .point()
}

const CROSSINGS: &[(Ends, Ends, Option<Place>)] = &[
    ((0, 0, 3, 1), (1, -1, 1, 3), Some((3, 1, 3))),
    ((1, -1, 1, 3), (0, 0, 3, 1), Some((3, 1, 3))),
    (RISING, FALLING, Some((0, 0, 1))),
    ((0, 0, 4, 4), (1, 1, 5, 5), None),
    ((0, 0, 10, 0), (10, 0, 10, 10), Some((10, 0, 1))),
    // parallel ones that touch at an end, and equal ones
    ((0, 0, 4, 4), (4, 4, 8, 8), None),
    ((0, 0, 0, 4), (0, 4, 0, 8), None),
    ((0, 0, 4, 4), (0, 0, 4, 4), None),
    // their lines meet just after an end
    ((0, 0, 10, 0), (11, -1, 11, 1), None),
    ((0, 0, 10, 0), (5, 1, 5, 9), None),
    ((0, 0, 3, 1), (1, 1, 1, 3), None),
    ((0, 0, 3, 1), (4, -1, 4, 3), None),
    // halves, and the greatest numbers
    (
        (-1048576, -1048576, 1048576, 1048575),
        (-1048576, 1048575, 1048576, -1048576),
        Some((0, -1, 2)),
    ),
    (
        RISING,
        (-1048576, 1048576, 1048576, -1048575),
        Some((1048576, 1048576, 4194303)),
    ),
    (
        (1048575, 1048575, 1048576, 1048576),
        (1048576, 1048575, 1048576, 1048576),
        Some((1048576, 1048576, 1)),
    ),
];

#[test]
fn segments_cross_at_one_exact_place(rt: HostRuntime) {
    for (row, &(a, b, want)) in CROSSINGS.iter().enumerate() {
        let (one, other) = (seg(&rt, a), seg(&rt, b));
        check(&rt, row, &lowest(cross_of(&one, &other)), &want);
        check(&rt, row, &lowest(cross_of(&other, &one)), &want);
    }
}

const BORDERS: &[(Ends, u8, Option<Place>)] = &[
    ((-10, -10, 10, -10), 16, Some((0, -10, 1))),
    ((0, 0, 10, 0), 16, None),
    ((-10, 0, 0, 0), 16, None),
    ((0, -5, 0, 5), 16, None),
    ((1, 0, 10, 0), 16, None),
    ((-1, 0, 2, 1), 16, Some((0, 1, 3))),
    (RISING, 0, None),
    (RISING, 1, Some((-983040, -983040, 1))),
    (RISING, 31, Some((983040, 983040, 1))),
    (RISING, 32, None),
    (RISING, 33, None),
    (RISING, 255, None),
];

#[test]
fn a_border_is_named_strictly_between_the_ends(rt: HostRuntime) {
    for (row, &(ends, column, want)) in BORDERS.iter().enumerate() {
        let name = PointName::Border(seg(&rt, ends), column);
        check(&rt, row, &lowest(name.point()), &want);
    }
}

#[test]
fn vertices_and_crossings_have_names(rt: HostRuntime) {
    let (a, b) = (seg(&rt, (0, 0, 3, 1)), seg(&rt, (1, -1, 1, 3)));
    let names = &[
        (PointName::Vertex(at(&rt, 5, -7)), Some((5, -7, 1))),
        (PointName::Vertex(at(&rt, 0, 0)), Some((0, 0, 1))),
        (PointName::Cross(a, b), Some((3, 1, 3))),
        (PointName::Cross(a, a), None),
    ];
    for (row, &(name, want)) in names.iter().enumerate() {
        check(&rt, row, &lowest(name.point()), &want);
    }
}

const ORDERS: &[(Numbers, Numbers, Ordering)] = &[
    ((2, 2, 4), (1, 1, 2), Ordering::Equal),
    ((1, 1, 2), (1, 0, 1), Ordering::Less),
    ((-1, 0, 3), (-1, 0, 2), Ordering::Greater),
    ((1, 1, 2), (2, 1, 4), Ordering::Greater),
    ((0, 0, 1), (0, 0, 1024), Ordering::Equal),
    ((1048576, 0, 1), (1073741823, 0, 1024), Ordering::Greater),
    (
        (-1048576, -1048576, 1),
        (-1048576, 1048576, 1),
        Ordering::Less,
    ),
];

#[test]
fn points_are_ordered_by_x_and_then_by_y(rt: HostRuntime) {
    for (row, &(p, q, want)) in ORDERS.iter().enumerate() {
        let (left, right) = (point(&rt, p), point(&rt, q));
        check(&rt, row, &left.cmp(&right), &want);
        check(&rt, row, &right.cmp(&left), &want.reverse());
        check(&rt, row, &(left == right), &want.is_eq());
        check(&rt, row, &(left < right), &want.is_lt());
    }
}

/// A segment and a point, at which side the point lies, whether the segment is below it and whether it is on the
/// segment.
const SIDES: &[(Ends, Numbers, Ordering, bool, bool)] = &[
    ((0, 0, 4, 2), (2, 1, 1), Ordering::Equal, false, true),
    ((0, 0, 4, 2), (2, 2, 1), Ordering::Greater, true, false),
    ((0, 0, 4, 2), (2, 0, 1), Ordering::Less, false, false),
    ((0, 0, 4, 2), (0, 1, 1), Ordering::Greater, true, false),
    ((0, 0, 4, 2), (4, 3, 1), Ordering::Greater, false, false),
    ((0, 0, 4, 2), (-1, 3, 1), Ordering::Greater, false, false),
    ((0, 0, 4, 2), (0, 0, 1), Ordering::Equal, false, true),
    ((0, 0, 4, 2), (4, 2, 1), Ordering::Equal, false, true),
    ((0, 0, 4, 2), (6, 3, 1), Ordering::Equal, false, false),
    ((0, 0, 4, 2), (-2, -1, 1), Ordering::Equal, false, false),
    ((0, 0, 4, 2), (2, 1, 2), Ordering::Equal, false, true),
    ((0, 0, 4, 2), (1, 1, 2), Ordering::Greater, true, false),
    ((0, 0, 4, 2), (1, 0, 3), Ordering::Less, false, false),
    // left of a vertical line counts as above it
    ((3, 0, 3, 5), (2, 1, 1), Ordering::Greater, false, false),
    ((3, 0, 3, 5), (4, 1, 1), Ordering::Less, false, false),
    ((3, 0, 3, 5), (9, 1, 3), Ordering::Equal, false, true),
    ((3, 0, 3, 5), (3, 6, 1), Ordering::Equal, false, false),
    ((3, 0, 3, 5), (3, -1, 1), Ordering::Equal, false, false),
    (
        RISING,
        (1048575, 1048576, 1),
        Ordering::Greater,
        true,
        false,
    ),
    (RISING, (1048576, 1048576, 1), Ordering::Equal, false, true),
    (
        RISING,
        (1073741823, 1073741822, 1024),
        Ordering::Less,
        false,
        false,
    ),
];

#[test]
fn a_segment_is_below_up_to_its_right_end(rt: HostRuntime) {
    for (row, &(ends, p, want, is_below, is_on)) in SIDES.iter().enumerate() {
        let (segment, place) = (seg(&rt, ends), point(&rt, p));
        check(&rt, row, &side(&segment, &place), &want);
        check(&rt, row, &below(&segment, &place), &is_below);
        check(&rt, row, &on(&segment, &place), &is_on);
    }
}

/// The numbers of a query's point.
fn numbers_of(query: QueryPoint) -> Place {
    let p = query.point();
    (p.x, p.y, p.w)
}

const QUERIES: &[(Numbers, bool)] = &[
    ((0, 0, 1), true),
    ((0, 0, 0), false),
    ((0, 0, -1), false),
    ((0, 0, 1024), true),
    ((0, 0, 1025), false),
    ((1073741824, -1073741824, 1024), true),
    ((1073741825, 0, 1024), false),
    ((0, -1073741825, 1024), false),
    ((1048577, 0, 1), false),
    ((0, 1048577, 1), false),
    ((-1048577, 0, 1), false),
    ((i64::MIN, i64::MAX, i64::MAX), false),
];

#[test]
fn a_query_has_a_denominator_up_to_1024(rt: HostRuntime) {
    for (row, &((x, y, w), is_good)) in QUERIES.iter().enumerate() {
        let numbers = (i128::from(x), i128::from(y), i128::from(w));
        let want = if is_good {
            Ok(numbers)
        } else {
            Err(PointFault::PointRange)
        };
        check(&rt, row, &QueryPoint::new(x, y, w).map(numbers_of), &want);
    }
}

const FRACTIONS: &[(Numbers, Place)] = &[
    ((14, 14, 2), (7, 7, 1)),
    ((3, 1, 3), (3, 1, 3)),
    ((0, 0, 1024), (0, 0, 1)),
    ((-6, 4, 8), (-3, 2, 4)),
    ((-6, -9, 12), (-2, -3, 4)),
    ((0, 5, 10), (0, 1, 2)),
    ((1073741824, -1073741824, 1024), (1048576, -1048576, 1)),
];

#[test]
fn points_are_reduced_to_lowest_terms(rt: HostRuntime) {
    for (row, &(p, want)) in FRACTIONS.iter().enumerate() {
        check(&rt, row, &lowest(Some(point(&rt, p))), &Some(want));
    }
}

/// Where two segments cross, in large numbers.
fn crossing(rt: &impl Abort, two: Crossing) -> HPoint {
    cross_of(&seg(rt, two.0), &seg(rt, two.1)).expect(rt, "they cross")
}

const MIDDLES: &[(Ends, Numbers, Numbers, bool)] = &[
    ((0, 0, 4, 2), (0, 2, 1), (4, 2, 1), true),
    ((0, 0, 4, 2), (0, 0, 1), (4, 2, 1), false),
    ((0, 0, 4, 2), (0, 0, 1), (4, 1, 1), false),
    ((0, 0, 4, 2), (-2, 4, 1), (2, 4, 1), true),
    ((0, 0, 4, 2), (-3, 4, 1), (2, 4, 1), false),
    ((0, 0, 4, 2), (2, 4, 1), (6, 4, 1), false),
    ((0, 0, 4, 2), (2, 4, 1), (5, 4, 1), true),
    ((0, 0, 4, 2), (1, 2, 3), (5, 3, 2), true),
    ((0, 0, 4, 2), (1, -9, 1), (3, 11, 1), false),
    ((0, 0, 4, 2), (1, -9, 1), (3, 13, 1), true),
    ((0, 0, 4, 2), (-1, 5, 1024), (1, -5, 1024), false),
    ((0, 0, 4, 2), (-1, 6, 1024), (1, -5, 1024), true),
    ((0, 0, 4, 2), (-2, 6, 1024), (1, -5, 1024), false),
    ((3, 0, 3, 5), (2, 1, 1), (4, 9, 1), false),
    ((3, 0, 3, 5), (3, 6, 1), (3, 9, 1), false),
    (
        RISING,
        (1073741823, 1073741822, 1024),
        (-1073741823, -1073741822, 1024),
        false,
    ),
    (
        RISING,
        (1073741823, 1073741822, 1024),
        (-1072693247, -1072693246, 1023),
        true,
    ),
    (
        RISING,
        (1073741823, 1073741824, 1024),
        (-1048576, -1048576, 1),
        true,
    ),
];

#[test]
fn a_segment_is_below_the_middle_of_two_points(rt: HostRuntime) {
    for (row, &(ends, from, to, want)) in MIDDLES.iter().enumerate() {
        let segment = seg(&rt, ends);
        let (p, q) = (point(&rt, from), point(&rt, to));
        check(&rt, row, &below_middle(&segment, &p, &q), &want);
        check(&rt, row, &below_middle(&segment, &q, &p), &want);
    }
}

const MIDDLES_OF_CROSSINGS: &[(Ends, Crossing, Crossing, bool)] = &[
    (
        (-1048576, -1048576, 1048576, -1048576),
        CENTRE,
        CENTRE,
        true,
    ),
    ((-1048576, 1048576, 1048576, 1048576), CENTRE, CENTRE, false),
    (
        (-1048576, -1048576, 1048576, -1048575),
        CENTRE,
        CENTRE,
        true,
    ),
    ((-1048576, -1048576, 0, 1048576), CENTRE, CENTRE, false),
    ((0, -1048576, 1048576, -1048576), CENTRE, CENTRE, true),
    ((-1048576, -1048576, 0, -1048576), CENTRE, CENTRE, false),
    (RISING, CENTRE, CENTRE, false),
    ((-1048576, -1048576, 1048576, 1048575), CENTRE, CENTRE, true),
    (
        (-1048576, -1048575, 1048576, 1048576),
        CENTRE,
        CENTRE,
        false,
    ),
    (RISING, UPPER_LEFT, UPPER_LEFT, true),
    (
        (-1048575, -1048576, 1048576, 1048576),
        UPPER_LEFT,
        UPPER_LEFT,
        false,
    ),
    (RISING, LOWER_RIGHT, LEFT, false),
    (RISING, LOWER_RIGHT_IN, LEFT, true),
    (RISING, LOWER_RIGHT, LEFT_IN, false),
    (
        (-1048576, -1048576, 1048576, 1048575),
        LOWER_RIGHT,
        LEFT,
        true,
    ),
    (
        (-1048576, -1048576, 1048576, 1048575),
        LOWER_RIGHT,
        LEFT_IN,
        false,
    ),
    (
        (-1048576, -1048576, 1048576, 1048575),
        LOWER_RIGHT_IN,
        LEFT,
        true,
    ),
    (
        (-1048576, -1048575, 1048576, 1048576),
        LOWER_RIGHT,
        LEFT,
        false,
    ),
    (
        (-1048576, -1048575, 1048576, 1048576),
        LOWER_RIGHT_IN,
        LEFT,
        true,
    ),
    (RISING, RIGHT_MIRRORED, LEFT_MIRRORED, false),
    (
        (-1048576, -1048576, 1048576, 1048575),
        RIGHT_MIRRORED,
        LEFT_MIRRORED,
        true,
    ),
    (
        (0, -5, 1048576, 1048576),
        RIGHT_MIRRORED,
        LEFT_MIRRORED,
        true,
    ),
    (
        (-1048576, -1048576, 0, -5),
        RIGHT_MIRRORED,
        LEFT_MIRRORED,
        false,
    ),
    (
        (-1048576, -1048576, 1, -5),
        RIGHT_MIRRORED,
        LEFT_MIRRORED,
        true,
    ),
];

#[test]
fn the_middle_of_two_crossings_is_exact(rt: HostRuntime) {
    for (row, &(ends, from, to, want)) in MIDDLES_OF_CROSSINGS.iter().enumerate() {
        let segment = seg(&rt, ends);
        let (p, q) = (crossing(&rt, from), crossing(&rt, to));
        check(&rt, row, &below_middle(&segment, &p, &q), &want);
        check(&rt, row, &below_middle(&segment, &q, &p), &want);
    }
}
