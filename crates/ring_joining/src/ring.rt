//! A closed ring by the numbers of its pieces.
ghost use Rattle.std.specs.Prelude.{◌≡◌, ℕ, List};

use std::marker::Model;

/// The numbers of a ring's pieces, in their order round the ring.
#[derive(Debug, Drop)]
pub struct PieceRing {
    pub(crate) pieces: Vec<usize>,
}

impl Model for PieceRing {
    ghost Value = { List ℕ };

    ghost view = { λ r. r.pieces.items };
}

impl PieceRing {
    /// The numbers of its pieces.
    pub fn pieces(&self) -> &[usize]
        ensures { result.now ≡ self.now }
    {
        &self.pieces
    }
}
