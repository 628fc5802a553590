//! What is drawn of rings within a core, and what is left of them for it.
use arrange::MarkedSeg;
use block_reading::{Core, FarPoint};
use near_steps::{Drawing, NearCore, draw, draw_border, draw_feature, reduced};
use plane_base::{COORD_MAX, Pt, Seg};
use std::alloc::Global;
use std::process::Abort;

/// A place by its x and its y.
type Place = (i64, i64);

/// The low corner of the core of these tests, which is 10 wide and 20 high.
const LOW: Place = (-4000000000, 2199023255000);

/// Far from the core, where coordinates end.
const END: i64 = 2199023255552;

/// Rings, seen from the core's low corner; what is left of each; the ends of the segments that are drawn.
const RINGS: &[(&[Place], &[Place], &[(Place, Place)])] = &[
    (&[], &[], &[]),
    (&[(1, 1)], &[(1, 1)], &[]),
    // within the core
    (
        &[(1, 1), (3, 1), (3, 4), (1, 1)],
        &[(1, 1), (3, 1), (3, 4), (1, 1)],
        &[((1, 1), (3, 1)), ((3, 1), (3, 4)), ((1, 1), (3, 4))],
    ),
    // wholly left of it, and wholly over it
    (
        &[(-9, 1), (-3, 5), (-3, 50), (-9, 1)],
        &[(-9, 1), (-9, 1)],
        &[],
    ),
    (
        &[(-9, 21), (30, 21), (5, 500), (-9, 21)],
        &[(-9, 21), (-9, 21)],
        &[],
    ),
    // on its border
    (
        &[(0, 0), (10, 0), (10, 20), (0, 20), (0, 0)],
        &[(0, 0), (10, 0), (10, 20), (0, 20), (0, 0)],
        &[
            ((0, 0), (10, 0)),
            ((10, 0), (10, 20)),
            ((0, 20), (10, 20)),
            ((0, 0), (0, 20)),
        ],
    ),
    // from under it into it: the second point is left out
    (
        &[(2, -10), (4, -20), (6, -10), (5, 5), (2, -10)],
        &[(2, -10), (6, -10), (5, 5), (2, -10)],
        &[((2, -10), (6, -10)), ((5, 5), (6, -10)), ((2, -10), (5, 5))],
    ),
    // around it, farther than the plane goes
    (
        &[
            (-2000000, -3000000),
            (5000000, -3000000),
            (5000000, 4000000),
            (-2000000, 4000000),
            (-2000000, -3000000),
        ],
        &[
            (-2000000, -3000000),
            (5000000, -3000000),
            (5000000, 4000000),
            (-2000000, 4000000),
            (-2000000, -3000000),
        ],
        &[
            ((-COORD_MAX, -COORD_MAX), (COORD_MAX, -COORD_MAX)),
            ((COORD_MAX, -COORD_MAX), (COORD_MAX, COORD_MAX)),
            ((-COORD_MAX, COORD_MAX), (COORD_MAX, COORD_MAX)),
            ((-COORD_MAX, -COORD_MAX), (-COORD_MAX, COORD_MAX)),
        ],
    ),
    // as far as the plane goes, through the core
    (
        &[(-1048576, 5), (1048576, 5), (5, 1048576), (-1048576, 5)],
        &[(-1048576, 5), (1048576, 5), (5, 1048576), (-1048576, 5)],
        &[
            ((-COORD_MAX, 5), (COORD_MAX, 5)),
            ((5, COORD_MAX), (COORD_MAX, 5)),
            ((-COORD_MAX, 5), (5, COORD_MAX)),
        ],
    ),
];

/// A ring of which one step, through the core, leaves the plane by a unit.
const LONG: &[Place] = &[(5, 5), (1048577, 5), (5, 6), (5, 5)];

/// The box of these tests.
fn own_box() -> Core {
    let (low_x, low_y) = LOW;
    Core {
        low_x,
        high_x: low_x.wrapping_add(10),
        low_y,
        high_y: low_y.wrapping_add(20),
    }
}

/// The core of these tests.
fn own_core(rt: &impl Abort) -> NearCore {
    NearCore::of(&own_box()).expect(rt, "a core")
}

/// A number seen from 0 that was seen from another.
fn back(rt: &impl Abort, from: i64, by: i64) -> i64 {
    from.checked_add(by).expect(rt, "a coordinate")
}

/// Adds points that are seen from the core's low corner.
fn add_points(rt: &impl Abort, points: &mut Vec<FarPoint>, places: &[Place]) {
    let (low_x, low_y) = LOW;
    for &(x, y) in places {
        let at = FarPoint {
            x: back(rt, low_x, x),
            y: back(rt, low_y, y),
        };
        points.push(at).expect(rt, "memory");
    }
}

/// Points from such places.
fn points_of(rt: &impl Abort, alloc: Global, places: &[Place]) -> Vec<FarPoint> {
    let mut points = Vec::new(alloc);
    add_points(rt, &mut points, places);
    points
}

/// A point of the plane.
fn point(rt: &impl Abort, at: Place) -> Pt {
    let (x, y) = at;
    Pt::new(x, y).expect(rt, "in range")
}

/// Whether a segment has a layer, a left end and a right end.
fn is_segment(rt: &impl Abort, marked: &MarkedSeg, layer: u8, want: (Place, Place)) -> bool {
    let (left, right) = want;
    marked.layer == layer && Seg::of(point(rt, left), point(rt, right)) == Some(marked.seg)
}

/// Checks that segments of a layer are these, in order.
fn check_segments(rt: &impl Abort, marked: &[MarkedSeg], layer: u8, want: &[(Place, Place)]) {
    assert!(rt; marked.len() == want.len());
    for (one, &ends) in marked.iter().zip(want) {
        assert!(rt; is_segment(rt, one, layer, ends));
    }
}

/// Whether points are those of places seen from the core's low corner.
fn are_points(rt: &impl Abort, points: &[FarPoint], places: &[Place]) -> bool {
    let (low_x, low_y) = LOW;
    points.len() == places.len()
        && points.iter().zip(places).all(|(p, &(x, y))| p.x == back(rt, low_x, x)
            && p.y == back(rt, low_y, y))
}

#[test]
fn rings_are_drawn_within_a_core(rt: HostRuntime) {
    for &(places, _, want) in RINGS {
        let points = points_of(&rt, rt.alloc(), places);
        let mut marked = Vec::new(rt.alloc());
        let done = draw(&mut marked, 7, &points, &own_core(&rt)).expect(&rt, "memory");
        assert!(&rt; done == Drawing::Whole);
        check_segments(&rt, &marked, 7, want);
    }
}

#[test]
fn what_is_left_of_a_ring_is_drawn_as_the_ring(rt: HostRuntime) {
    for &(places, left, want) in RINGS {
        let points = points_of(&rt, rt.alloc(), places);
        let kept = reduced(rt.alloc(), &points, &own_box()).expect(&rt, "memory");
        assert!(&rt; are_points(&rt, &kept, left));
        let mut marked = Vec::new(rt.alloc());
        let done = draw(&mut marked, 0, &kept, &own_core(&rt)).expect(&rt, "memory");
        assert!(&rt; done == Drawing::Whole);
        check_segments(&rt, &marked, 0, want);
    }
}

#[test]
fn a_step_too_long_is_told(rt: HostRuntime) {
    let points = points_of(&rt, rt.alloc(), LONG);
    let mut marked = Vec::new(rt.alloc());
    let done = draw(&mut marked, 0, &points, &own_core(&rt)).expect(&rt, "memory");
    assert!(&rt; done == Drawing::StepTooLong);
}

#[test]
fn a_feature_is_drawn_ring_by_ring(rt: HostRuntime) {
    let mut points = points_of(&rt, rt.alloc(), &[(1, 1), (3, 1), (3, 4), (1, 1)]);
    add_points(&rt, &mut points, &[(-9, 1), (-3, 5), (-3, 50), (-9, 1)]);
    add_points(&rt, &mut points, &[(2, 2), (2, 3), (3, 3), (2, 2)]);
    let mut marked = Vec::new(rt.alloc());
    let done = draw_feature(&mut marked, 3, &[4, 4, 4], &points, &own_core(&rt)).expect(
        &rt, "memory",
    );
    assert!(&rt; done == Drawing::Whole);
    let want = &[
        ((1, 1), (3, 1)),
        ((3, 1), (3, 4)),
        ((1, 1), (3, 4)),
        ((2, 2), (2, 3)),
        ((2, 3), (3, 3)),
        ((2, 2), (3, 3)),
    ];
    check_segments(&rt, &marked, 3, want);
}

#[test]
fn the_second_ring_of_a_feature_has_a_step_too_long(rt: HostRuntime) {
    let mut points = points_of(&rt, rt.alloc(), &[(1, 1), (3, 1), (3, 4), (1, 1)]);
    add_points(&rt, &mut points, LONG);
    let mut marked = Vec::new(rt.alloc());
    let done = draw_feature(&mut marked, 0, &[4, 4], &points, &own_core(&rt)).expect(&rt, "memory");
    assert!(&rt; done == Drawing::StepTooLong);
    check_segments(
        &rt,
        &marked,
        0,
        &[((1, 1), (3, 1)), ((3, 1), (3, 4)), ((1, 1), (3, 4))],
    );
}

#[test]
fn a_border_is_added_after_what_is_there(rt: HostRuntime) {
    let points = points_of(&rt, rt.alloc(), &[(1, 1), (3, 1)]);
    let mut marked = Vec::new(rt.alloc());
    let done = draw(&mut marked, 2, &points, &own_core(&rt)).expect(&rt, "memory");
    assert!(&rt; done == Drawing::Whole);
    draw_border(&mut marked, 2, &own_core(&rt)).expect(&rt, "memory");
    let want = &[
        ((1, 1), (3, 1)),
        ((0, 0), (10, 0)),
        ((10, 0), (10, 20)),
        ((0, 20), (10, 20)),
        ((0, 0), (0, 20)),
    ];
    check_segments(&rt, &marked, 2, want);
}

#[test]
fn a_core_is_less_than_a_half_of_the_plane_wide(rt: HostRuntime) {
    let wide = Core {
        low_x: -END,
        high_x: -END + 1048575,
        low_y: END - 1048575,
        high_y: END,
    };
    assert!(&rt; NearCore::of(&wide).is_some());
    assert!(&rt;
        NearCore::of(&Core {
            high_x: -END + 1048576,
            ..wide
        })
        .is_none()
    );
    assert!(&rt;
        NearCore::of(&Core {
            low_y: END - 1048576,
            ..wide
        })
        .is_none()
    );
    assert!(&rt;
        NearCore::of(&Core {
            low_x: -END - 1,
            ..wide
        })
        .is_none()
    );
    assert!(&rt;
        NearCore::of(&Core {
            high_y: END + 1,
            ..wide
        })
        .is_none()
    );
    assert!(&rt;
        NearCore::of(&Core {
            low_x: -END + 1048576,
            ..wide
        })
        .is_none()
    );
}
