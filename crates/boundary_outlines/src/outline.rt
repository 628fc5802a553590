//! Outlines.
ghost use Rattle.ring_joining.specs.Outline.{IsOutline};

use crate::place::Place;
use ring_joining::{NumberedPiece, PieceRing};

/// A ring: the number of the ring that it is a hole of, if it is one, and its corners, from so many to so many of all.
#[derive(Clone, Copy, Debug)]
pub struct OutlineRing {
    pub outer: Option<usize>,
    pub from: usize,
    pub to: usize,
}

/// Rings with the inside on their left. Places are in their order, each once; edges lead from place to place, by their
/// numbers. Each ring has its edges, and the corners among the places where these begin.
#[derive(Debug, Drop)]
pub struct Outline {
    pub places: Vec<Place>,
    pub edges: Vec<NumberedPiece>,
    pub joined: Vec<PieceRing>,
    pub rings: Vec<OutlineRing>,
    pub corners: Vec<usize>,
    // Each edge is in just one ring, once, and begins where the one before it ends.
    pub ghost once: { IsOutline edges.items joined.items },
}
