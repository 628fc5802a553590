//! Whole points, segments, columns and base layers, worked by hand.
use crate::tests::rows::check;
use plane_base::{BaseLayer, Column, PlaneFault, Pt, Ring, Seg, column_of};
use std::process::Abort;

/// The point with these coordinates.
fn at(rt: &impl Abort, x: i64, y: i64) -> Pt {
    Pt::new(x, y).expect(rt, "in range")
}

/// Whether the coordinates are within the limits.
const COORDINATES: &[(i64, i64, bool)] = &[
    (1048576, -1048576, true),
    (-1048576, 1048576, true),
    (1048577, 0, false),
    (-1048577, 0, false),
    (0, 1048577, false),
    (0, -1048577, false),
    (i64::MIN, i64::MAX, false),
];

#[test]
fn coordinates_end_at_a_power_of_two(rt: HostRuntime) {
    for (row, &(x, y, is_good)) in COORDINATES.iter().enumerate() {
        let want = if is_good {
            Ok((x, y))
        } else {
            Err(PlaneFault::CoordRange)
        };
        check(&rt, row, &Pt::new(x, y).map(|p| (p.x(), p.y())), &want);
    }
}

/// Two points, each by its two coordinates.
type Ends = (i64, i64, i64, i64);

const ENDS: &[(Ends, Option<Ends>)] = &[
    ((3, 1, 0, 0), Some((0, 0, 3, 1))),
    ((5, 9, 5, -9), Some((5, -9, 5, 9))),
    ((0, 4, 4, 0), Some((0, 4, 4, 0))),
    ((7, 7, 7, 7), None),
];

/// The coordinates of a segment's ends.
fn ends_of(seg: Seg) -> Ends {
    let (left, right) = (seg.left(), seg.right());
    (left.x(), left.y(), right.x(), right.y())
}

#[test]
fn a_segment_has_its_left_end_first(rt: HostRuntime) {
    for (row, &((ax, ay, bx, by), want)) in ENDS.iter().enumerate() {
        let seg = Seg::of(at(&rt, ax, ay), at(&rt, bx, by));
        check(&rt, row, &seg.map(ends_of), &want);
    }
}

/// The column of the places with x / w.
const COLUMNS: &[(i128, i128, Option<u8>)] = &[
    (1048576, 1, Some(32)),
    (-1, 3, Some(15)),
    (1048577, 1, None),
    (-1048577, 1, None),
    (-1048576, 1, Some(0)),
    (65535, 1, Some(16)),
    (65536, 1, Some(17)),
    (196607, 3, Some(16)),
    (9223372036854775808, 8796093022208, Some(32)),
    (9223372036854775807, 8796093022208, Some(31)),
];

#[test]
fn columns_are_counted_from_the_left(rt: HostRuntime) {
    for (row, &(x, w, want)) in COLUMNS.iter().enumerate() {
        check(&rt, row, &column_of(x, w).map(|c| c.number()), &want);
    }
}

const BORDERS: &[(u64, Option<i64>)] = &[
    (0, Some(-1048576)),
    (15, Some(-65536)),
    (16, Some(0)),
    (32, Some(1048576)),
    (33, None),
    (u64::MAX, None),
];

#[test]
fn a_column_begins_at_its_border(rt: HostRuntime) {
    for (row, &(number, want)) in BORDERS.iter().enumerate() {
        check(&rt, row, &Column::new(number).map(|c| c.border()), &want);
    }
}

#[test]
fn equal_points_give_no_segment_and_rings_give_their_points_back(rt: HostRuntime) {
    let mut points = Vec::new(rt.alloc());
    for &(x, y) in &[(0, 0), (3, 0), (3, 0), (0, 3), (0, 0)] {
        points.push(at(&rt, x, y)).expect(&rt, "memory");
    }
    let mut rings = Vec::new(rt.alloc());
    rings.push(Ring::new(points)).expect(&rt, "memory");
    let layer = BaseLayer::new(rt.alloc(), rings).expect(&rt, "a layer");
    check(&rt, 0, &layer.rings().len(), &1);
    check(&rt, 0, &layer.segs().len(), &3);
    let first = Seg::of(at(&rt, 0, 0), at(&rt, 3, 0));
    check(&rt, 0, &layer.segs().first().copied(), &first);
    let given_back = layer.rings().first().map(|ring| ring.points().len());
    check(&rt, 0, &given_back, &Some(5));
}
