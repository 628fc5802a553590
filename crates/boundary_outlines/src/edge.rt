//! Pieces of a boundary, and edges between numbered places.
use crate::place::Place;

/// The line through the whole point (x, y) which leads so far to the right and so far up. It leads to the right, or upright.
#[derive(Clone, Copy, Debug)]
pub struct Line {
    pub x: i64,
    pub y: i64,
    pub run: i64,
    pub rise: i64,
}

/// A piece of a boundary from one place to a later one, and whether the inside is over it, or left of an upright one.
#[derive(Clone, Copy, Debug)]
pub struct BoundaryPiece {
    pub from: Place,
    pub to: Place,
    pub line: Line,
    pub over: bool,
}

/// The same by the numbers of its places.
#[derive(Clone, Copy, Debug)]
pub(crate) struct Edge {
    pub from: usize,
    pub to: usize,
    pub line: Line,
    pub over: bool,
}

/// Places, each once and in order, and edges between them.
#[derive(Debug, Drop)]
pub(crate) struct Net {
    pub places: Vec<Place>,
    pub edges: Vec<Edge>,
}

/// Where an edge begins with the inside on its left.
pub(crate) fn tail(edge: &Edge) -> usize {
    if edge.over { edge.from } else { edge.to }
}

/// Where it ends.
pub(crate) fn head(edge: &Edge) -> usize {
    if edge.over { edge.to } else { edge.from }
}

/// Its way with the inside on its left: so far to the right, and so far up.
pub(crate) fn way(edge: &Edge) -> (i64, i64) {
    let line = &edge.line;
    if edge.over {
        (line.run, line.rise)
    } else {
        back((line.run, line.rise))
    }
}

/// The way back.
pub(crate) fn back(way: (i64, i64)) -> (i64, i64) {
    (0_i64.saturating_sub(way.0), 0_i64.saturating_sub(way.1))
}

/// The cross product of two ways: positive where the second turns to the left.
pub(crate) fn cross(a: (i64, i64), b: (i64, i64)) -> i128 {
    let first = i128::from(a.0).saturating_mul(i128::from(b.1));
    first.saturating_sub(i128::from(a.1).saturating_mul(i128::from(b.0)))
}

impl Net {
    /// How an edge turns off from the one before it: positive to the left, 0 where it goes straight on.
    pub(crate) fn bend(&self, before: usize, edge: usize) -> i128 {
        match (self.edges.get(before), self.edges.get(edge)) {
            (Some(a), Some(b)) => cross(way(a), way(b)),
            _ => 0,
        }
    }

    /// Where an edge begins with the inside on its left.
    pub(crate) fn tail_of(&self, edge: usize) -> usize {
        match self.edges.get(edge) {
            Some(own) => tail(own),
            None => 0,
        }
    }
}
