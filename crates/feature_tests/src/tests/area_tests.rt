//! The boundary of two squares with its sides, and the area that it encloses.
ghost use Rattle.std.specs.Prelude.{map, All, IfSome};
ghost use Rattle.sided_pieces.specs.Sided.{sided_of, IsOnItsSupport};

use arrange::TileInput;
use crossing_sweep::PassInput;
use exact_point::HPoint;
use layer_book::Layers;
use layer_book::command::Command;
use layer_expr::name::Name;
use layer_expr::reading::read_expr;
use plane_base::{BaseLayer, Pt, Ring};
use sided_pieces::{SidedTile, enclosed_area, sided_tile};
use std::alloc::Global;
use std::process::Abort;
use std::sync::Arc;
use swept_area::{Shift, SidedPiece};

/// The x and y where a piece begins, those where it ends, and whether the inside is over it, or left of a vertical one.
type Side = (i64, i64, i64, i64, bool);

/// What is defined over the squares A from 0 to 10 and B from 5 to 15, twice its area in units, and its boundary.
const BOUNDARIES: &[(&str, i128, &[Side])] = &[
    (
        "A & B",
        50,
        &[
            (5, 5, 5, 10, false),
            (5, 5, 10, 5, true),
            (5, 10, 10, 10, false),
            (10, 5, 10, 10, true),
        ],
    ),
    (
        "A | B",
        350,
        &[
            (0, 0, 0, 10, false),
            (0, 0, 10, 0, true),
            (0, 10, 5, 10, false),
            (5, 10, 5, 15, false),
            (5, 15, 15, 15, false),
            (10, 0, 10, 5, true),
            (10, 5, 15, 5, true),
            (15, 5, 15, 15, true),
        ],
    ),
    (
        "A - B",
        150,
        &[
            (0, 0, 0, 10, false),
            (0, 0, 10, 0, true),
            (0, 10, 5, 10, false),
            (5, 5, 5, 10, true),
            (5, 5, 10, 5, false),
            (10, 0, 10, 5, true),
        ],
    ),
    (
        "A ^ B",
        300,
        &[
            (0, 0, 0, 10, false),
            (0, 0, 10, 0, true),
            (0, 10, 5, 10, false),
            (5, 5, 5, 10, true),
            (5, 5, 10, 5, false),
            (5, 10, 5, 15, false),
            (5, 10, 10, 10, true),
            (5, 15, 15, 15, false),
            (10, 0, 10, 5, true),
            (10, 5, 10, 10, false),
            (10, 5, 15, 5, true),
            (15, 5, 15, 15, true),
        ],
    ),
];

/// Into how many parts of its area a unit square is divided.
const PARTS: i128 = 1099511627776;

/// How far the strip lies from where areas are seen.
const SHIFTS: &[(i64, i64)] = &[(0, 0), (-3, 1000000007), (2199023255552, -2199023255552)];

/// The point with these coordinates.
fn point(rt: &impl Abort, x: i64, y: i64) -> Pt {
    Pt::new(x, y).expect(rt, "in range")
}

/// The square from one coordinate to another along both axes.
fn square(rt: &impl Abort, alloc: Global, low: i64, high: i64) -> BaseLayer {
    let mut points = Vec::new(alloc);
    for &(x, y) in &[
        (low, low),
        (high, low),
        (high, high),
        (low, high),
        (low, low),
    ] {
        points.push(point(rt, x, y)).expect(rt, "memory");
    }
    let mut rings = Vec::new(alloc);
    rings.push(Ring::new(points)).expect(rt, "memory");
    BaseLayer::new(alloc, rings).expect(rt, "a layer")
}

/// A name.
fn name(rt: &impl Abort, alloc: Global, text: &str) -> Name {
    Name::new(alloc, text.as_bytes()).expect(rt, "a name")
}

/// The layers with a square from one coordinate to another under a name.
fn with_square(
    rt: &impl Abort,
    alloc: Global,
    layers: Layers,
    text: &str,
    low: i64,
    high: i64,
) -> Layers {
    let base = Arc::new(alloc, square(rt, alloc, low, high)).expect(rt, "memory");
    let put = Command::Put(name(rt, alloc, text), base);
    layers.apply(alloc, &put).expect(rt, "accepted")
}

/// The layers with one that a text defines, under the name I.
fn with_definition(rt: &impl Abort, alloc: Global, layers: Layers, text: &str) -> Layers {
    let expression = read_expr(alloc, text.as_bytes()).expect(rt, "an expression");
    let define = Command::Define(
        name(rt, alloc, "I"),
        Arc::new(alloc, expression).expect(rt, "memory"),
    );
    layers.apply(alloc, &define).expect(rt, "accepted")
}

/// What the column from 0 to 131072 is built from, of what a text defines over the two squares.
fn input_of(rt: &impl Abort, alloc: Global, text: &str) -> TileInput {
    let first = with_square(rt, alloc, Layers::new(alloc), "A", 0, 10);
    let both = with_square(rt, alloc, first, "B", 5, 15);
    let layers = with_definition(rt, alloc, both, text);
    let wanted = name(rt, alloc, "I");
    layers.input(alloc, &wanted, 16).expect(rt, "an input")
}

/// The boundary pieces that begin in a strip, at most so many, where they are no more.
fn boundary(
    rt: &impl Abort,
    alloc: Global,
    input: &PassInput,
    cap: usize,
) -> Option<Vec<SidedPiece>>
    ensures { IfSome result (λ list. All IsOnItsSupport (map sided_of list.items)) }
{
    match sided_tile(alloc, input, cap).expect(rt, "memory") {
        SidedTile::Pieces(list) => Some(list),
        SidedTile::Oversize => None,
    }
}

/// Whether a piece leads from one point to another and has its inside there.
fn is_side(rt: &impl Abort, piece: &SidedPiece, want: Side) -> bool {
    let (from_x, from_y, to_x, to_y, over) = want;
    piece.from == HPoint::of(point(rt, from_x, from_y))
        && piece.to == HPoint::of(point(rt, to_x, to_y))
        && piece.over == over
}

/// Checks that pieces are these, in order.
fn check_sides(rt: &impl Abort, pieces: &[SidedPiece], want: &[Side]) {
    assert!(rt; pieces.len() == want.len());
    for (piece, &side) in pieces.iter().zip(want) {
        assert!(rt; is_side(rt, piece, side));
    }
}

/// Checks that pieces enclose half of so many units, from wherever they are seen.
fn check_area(rt: &impl Abort, pieces: &[SidedPiece], twice: i128)
    requires { All IsOnItsSupport (map sided_of pieces.now) }
{
    for &(x, y) in SHIFTS {
        assert!(rt; x.unsigned_abs() <= 2199023255552 && y.unsigned_abs() <= 2199023255552);
        let by = Shift { x, y };
        assert!(rt; enclosed_area(pieces, &by) == twice.checked_mul(PARTS));
    }
}

#[test]
fn two_squares_have_their_boundary_with_its_sides_and_their_area(rt: HostRuntime) {
    for &(text, twice, want) in BOUNDARIES {
        let input = input_of(&rt, rt.alloc(), text);
        let pass = PassInput::of_column(&input);
        let pieces = boundary(&rt, rt.alloc(), &pass, want.len()).expect(&rt, "too many");
        check_sides(&rt, &pieces, want);
        check_area(&rt, &pieces, twice);
    }
}

#[test]
fn a_boundary_of_more_pieces_than_the_cap_is_too_large(rt: HostRuntime) {
    for &(text, _, want) in BOUNDARIES {
        let input = input_of(&rt, rt.alloc(), text);
        let pass = PassInput::of_column(&input);
        let cap = want.len().saturating_sub(1);
        assert!(rt; boundary(&rt, rt.alloc(), &pass, cap).is_none());
    }
}
