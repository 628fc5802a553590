//! Numbers of places.
use crate::edge::{BoundaryPiece, Edge, Net};
use crate::place::{Place, exact};
use std::alloc::{AllocError, Global};

/// An end of a piece with its place, and the rests of that in parts.
#[derive(Clone, Copy, Debug)]
struct PlacedEnd {
    place: Place,
    left: i128,
    up: i128,
    piece: usize,
    is_first: bool,
}

/// An end at a place.
fn end_at(place: &Place, piece: usize, is_first: bool) -> PlacedEnd {
    PlacedEnd {
        place: *place,
        left: exact(place.left, place.w),
        up: exact(place.up, place.w),
        piece,
        is_first,
    }
}

/// The ends of pieces by their places.
fn ends_in_order(alloc: Global, pieces: &[BoundaryPiece]) -> Result<Vec<PlacedEnd>, AllocError> {
    let mut ends = Vec::new(alloc);
    for number in 0..pieces.len() {
        let piece = &pieces[number];
        ends.push(end_at(&piece.from, number, true))?;
        ends.push(end_at(&piece.to, number, false))?;
    }
    ends.sort_unstable_by_key(|one| (one.place.x, one.left, one.place.y, one.up));
    Ok(ends)
}

/// Whether two ends are at one place.
fn is_same(a: &PlacedEnd, b: &PlacedEnd) -> bool {
    a.place.x == b.place.x && a.left == b.left && a.place.y == b.place.y && a.up == b.up
}

/// Pieces as edges that have no places yet.
fn unplaced(alloc: Global, pieces: &[BoundaryPiece]) -> Result<Vec<Edge>, AllocError> {
    let mut edges = Vec::new(alloc);
    for piece in pieces {
        edges.push(Edge {
            from: 0,
            to: 0,
            line: piece.line,
            over: piece.over,
        })?;
    }
    Ok(edges)
}

/// Gives an edge one of its places.
fn put(edges: &mut [Edge], end: &PlacedEnd, number: usize) {
    if let Some(edge) = edges.get_mut(end.piece) {
        if end.is_first {
            edge.from = number;
        } else {
            edge.to = number;
        }
    }
}

/// Pieces as edges, with each of their places once and in order.
pub(crate) fn numbered(alloc: Global, pieces: &[BoundaryPiece]) -> Result<Net, AllocError> {
    let ends = ends_in_order(alloc, pieces)?;
    let mut edges = unplaced(alloc, pieces)?;
    let mut places = Vec::new(alloc);
    let mut before: Option<PlacedEnd> = None;
    for end in &ends {
        let is_known = match &before {
            Some(last) => is_same(last, end),
            None => false,
        };
        if !is_known {
            places.push(end.place)?;
        }
        put(&mut edges, end, places.len().saturating_sub(1));
        before = Some(*end);
    }
    Ok(Net { places, edges })
}
