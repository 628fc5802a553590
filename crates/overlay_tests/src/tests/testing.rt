//! Layers and inputs of tiles for the tests, by the corners of their rings. What cannot be made ends the test.
use arrange::TileInput;
use layer_book::Layers;
use layer_book::batch::Batch;
use layer_book::command::Command;
use layer_expr::name::Name;
use layer_expr::reading::read_expr;
use plane_base::{BaseLayer, Pt, Ring};
use std::alloc::Global;
use std::process::Abort;
use std::sync::Arc;

/// The corners of rings, of each of which the last is the first.
pub type Corners = &'static [&'static [(i64, i64)]];

pub const SQUARE: Corners = &[&[(0, 0), (10, 0), (10, 10), (0, 10), (0, 0)]];

pub const SHIFTED: Corners = &[&[(5, 5), (15, 5), (15, 15), (5, 15), (5, 5)]];

pub const BOW_TIE: Corners = &[&[(0, 0), (4, 4), (4, 0), (0, 4), (0, 0)]];

pub const LEFT_HALF: Corners = &[&[(0, 0), (5, 0), (5, 10), (0, 10), (0, 0)]];

pub const TWICE: Corners = &[
    &[(0, 0), (10, 0), (10, 10), (0, 10), (0, 0)],
    &[(0, 0), (10, 0), (10, 10), (0, 10), (0, 0)],
];

pub const ACROSS: Corners = &[&[(-10, -10), (10, -10), (10, 10), (-10, 10), (-10, -10)]];

pub const CORNER: Corners = &[&[
    (1048575, 1048575),
    (1048576, 1048575),
    (1048576, 1048576),
    (1048575, 1048576),
    (1048575, 1048575),
]];

pub const TRIANGLE: Corners = &[&[(0, 0), (3, 1), (0, 2), (0, 0)]];

pub const STRIP: Corners = &[&[(1, -1), (2, -1), (2, 3), (1, 3), (1, -1)]];

pub const NEXT_TO_IT: Corners = &[&[(10, 0), (20, 0), (20, 10), (10, 10), (10, 0)]];

pub const DIAMOND: Corners = &[&[(0, -2), (2, 0), (0, 2), (-2, 0), (0, -2)]];

pub const NOTHING: Corners = &[];

/// The ring through these corners.
fn ring(rt: &impl Abort, alloc: Global, corners: &[(i64, i64)]) -> Ring {
    let mut points = Vec::new(alloc);
    for &(x, y) in corners {
        let point = Pt::new(x, y).expect(rt, "in range");
        points.push(point).expect(rt, "memory");
    }
    Ring::new(points)
}

/// The rings through these corners.
fn rings_of(rt: &impl Abort, alloc: Global, corners: Corners) -> Vec<Ring> {
    let mut rings = Vec::new(alloc);
    for &one in corners {
        rings.push(ring(rt, alloc, one)).expect(rt, "memory");
    }
    rings
}

/// A name.
pub fn name_of(rt: &impl Abort, alloc: Global, text: &str) -> Name {
    Name::new(alloc, text.as_bytes()).expect(rt, "a name")
}

/// The command that puts rings under a name.
pub fn put_rings(rt: &impl Abort, alloc: Global, name: &str, rings: Vec<Ring>) -> Command {
    let base = BaseLayer::new(alloc, rings).expect(rt, "a layer");
    let name = name_of(rt, alloc, name);
    Command::Put(name, Arc::new(alloc, base).expect(rt, "memory"))
}

/// The command that puts the rings through these corners under a name.
pub fn put(rt: &impl Abort, alloc: Global, name: &str, corners: Corners) -> Command {
    put_rings(rt, alloc, name, rings_of(rt, alloc, corners))
}

/// The command that defines a name by a text.
pub fn define(rt: &impl Abort, alloc: Global, name: &str, text: &str) -> Command {
    let expression = read_expr(alloc, text.as_bytes()).expect(rt, "an expression");
    let name = name_of(rt, alloc, name);
    Command::Define(name, Arc::new(alloc, expression).expect(rt, "memory"))
}

/// What a command changes.
#[derive(Drop)]
pub enum Change {
    /// The corners of a base layer.
    Put(&'static str, Corners),
    /// The text of a derived layer.
    Define(&'static str, &'static str),
    /// A layer that is taken out.
    Remove(&'static str),
}

/// The squares A from 0 to 10 and B from 5 to 15, and I where both are.
pub const OVERLAP: &[Change] = &[
    Change::Put("A", SQUARE),
    Change::Put("B", SHIFTED),
    Change::Define("I", "A & B"),
];

/// The command that makes a change.
pub fn command(rt: &impl Abort, alloc: Global, change: &Change) -> Command {
    match change {
        Change::Put(name, corners) => put(rt, alloc, name, corners),
        Change::Define(name, text) => define(rt, alloc, name, text),
        Change::Remove(name) => Command::Remove(name_of(rt, alloc, name)),
    }
}

/// The layers with these rings under a name.
pub fn with_rings(
    rt: &impl Abort,
    alloc: Global,
    layers: Layers,
    name: &str,
    rings: Vec<Ring>,
) -> Layers {
    let change = put_rings(rt, alloc, name, rings);
    layers.apply(alloc, &change).expect(rt, "accepted")
}

/// The layers with the rings through these corners under a name.
pub fn with_base(
    rt: &impl Abort,
    alloc: Global,
    layers: Layers,
    name: &str,
    corners: Corners,
) -> Layers {
    let rings = rings_of(rt, alloc, corners);
    with_rings(rt, alloc, layers, name, rings)
}

/// The layers with a layer that a text defines.
pub fn with_definition(
    rt: &impl Abort,
    alloc: Global,
    layers: Layers,
    name: &str,
    text: &str,
) -> Layers {
    let change = define(rt, alloc, name, text);
    layers.apply(alloc, &change).expect(rt, "accepted")
}

/// The layers A and B of these corners.
fn bases_of(rt: &impl Abort, alloc: Global, first: Corners, second: Corners) -> Layers {
    let one = with_base(rt, alloc, Layers::new(alloc), "A", first);
    with_base(rt, alloc, one, "B", second)
}

/// The layers A and B of these corners, and I by this definition.
pub fn layers_of(
    rt: &impl Abort,
    alloc: Global,
    first: Corners,
    second: Corners,
    definition: &str,
) -> Layers {
    let bases = bases_of(rt, alloc, first, second);
    with_definition(rt, alloc, bases, "I", definition)
}

/// The input of the tile of a layer in a column.
pub fn input_in(
    rt: &impl Abort,
    alloc: Global,
    layers: &Layers,
    name: &str,
    column: u8,
) -> TileInput {
    let name = name_of(rt, alloc, name);
    layers.input(alloc, &name, column).expect(rt, "an input")
}

/// The input of the tile of I in a column, over these layers.
pub fn input_of(
    rt: &impl Abort,
    alloc: Global,
    first: Corners,
    second: Corners,
    definition: &str,
    column: u8,
) -> TileInput {
    let layers = layers_of(rt, alloc, first, second, definition);
    input_in(rt, alloc, &layers, "I", column)
}

/// The commands that make these changes.
fn commands(rt: &impl Abort, alloc: Global, changes: &[Change]) -> Vec<Command> {
    let mut commands = Vec::new(alloc);
    for change in changes {
        let one = command(rt, alloc, change);
        commands.push(one).expect(rt, "memory");
    }
    commands
}

/// These changes as a batch.
pub fn batch(rt: &impl Abort, alloc: Global, changes: &[Change]) -> Batch {
    Batch::new(commands(rt, alloc, changes)).expect(rt, "a batch")
}
