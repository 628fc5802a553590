//! The order of edges round a place.
use crate::edge::{Edge, back, head, tail, way};
use crate::place::divided;
use ring_joining::NumberedPiece;
use std::alloc::{AllocError, Global};

/// An edge seen from one of its ends: the turn of its way from there, and whether it begins there.
#[derive(Clone, Copy, Debug)]
struct Ray {
    place: usize,
    turn: i128,
    begins: bool,
    edge: usize,
}

/// In how many parts a slope is told, 2^43; two slopes of ways up to 2^21 differ by 2^-42 at least.
const PARTS: i128 = 8796093022208;
/// More than any slope in parts.
const MIDDLE: i128 = 73786976294838206464;
/// More than the turn of any way up.
const HALF: i128 = 295147905179352825856;

/// How far up a way leads for its run, in parts.
pub(crate) fn slope(run: i64, rise: i64) -> i128 {
    let (whole, _) = divided(i128::from(rise).saturating_mul(PARTS), i128::from(run));
    whole
}

/// The turn of a way that leads up, or to the right: the more, the farther anti-clockwise.
fn half_turn(way: (i64, i64)) -> i128 {
    if way.1 == 0 {
        return 0;
    }
    MIDDLE.saturating_sub(slope(way.1, way.0))
}

/// The turn of a way from one that leads to the right.
fn turn(way: (i64, i64)) -> i128 {
    if way.1 > 0 || (way.1 == 0 && way.0 > 0) {
        half_turn(way)
    } else {
        half_turn(back(way)).saturating_add(HALF)
    }
}

/// Edges seen from their ends, by place, and anti-clockwise there.
fn rays(alloc: Global, edges: &[Edge]) -> Result<Vec<Ray>, AllocError> {
    let mut list = Vec::new(alloc);
    for number in 0..edges.len() {
        let edge = &edges[number];
        list.push(Ray {
            place: tail(edge),
            turn: turn(way(edge)),
            begins: true,
            edge: number,
        })?;
        list.push(Ray {
            place: head(edge),
            turn: turn(back(way(edge))),
            begins: false,
            edge: number,
        })?;
    }
    list.sort_unstable_by_key(|one| (one.place, one.turn));
    Ok(list)
}

/// Edges as pieces by the numbers of their places.
fn unranked(alloc: Global, edges: &[Edge]) -> Result<Vec<NumberedPiece>, AllocError> {
    let mut pieces = Vec::new(alloc);
    for edge in edges {
        pieces.push(NumberedPiece {
            from: tail(edge),
            to: head(edge),
            from_rank: 0,
            to_rank: 0,
        })?;
    }
    Ok(pieces)
}

/// Gives the end of a piece its rank, where so many began at its place before it.
fn rank(pieces: &mut [NumberedPiece], ray: &Ray, begun: usize) {
    if let Some(piece) = pieces.get_mut(ray.edge) {
        if ray.begins {
            piece.from_rank = begun;
        } else if begun == 0 {
            piece.to_rank = usize::MAX;
        } else {
            piece.to_rank = begun.saturating_sub(1);
        }
    }
}

/// Edges as pieces, with the inside on their left, and their ranks. A piece that ends at a place is followed by the first
/// one clockwise that begins there: that one bounds the same part of the inside.
pub(crate) fn ranked(alloc: Global, edges: &[Edge]) -> Result<Vec<NumberedPiece>, AllocError> {
    let rays = rays(alloc, edges)?;
    let mut pieces = unranked(alloc, edges)?;
    let mut place = usize::MAX;
    let mut begun: usize = 0;
    for ray in &rays {
        if ray.place != place {
            place = ray.place;
            begun = 0;
        }
        rank(&mut pieces, ray, begun);
        if ray.begins {
            begun = begun.saturating_add(1);
        }
    }
    Ok(pieces)
}
