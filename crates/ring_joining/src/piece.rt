//! A directed piece by the numbers of its ends.

/// A piece from one numbered place to another, and its rank among the pieces that begin and among those that end there.
/// Whoever numbers places gives two the same number exactly where they are the same.
#[derive(Clone, Copy, Debug)]
pub struct NumberedPiece {
    pub from: usize,
    pub to: usize,
    pub from_rank: usize,
    pub to_rank: usize,
}
