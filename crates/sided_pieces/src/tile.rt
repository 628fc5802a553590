//! A strip's boundary with its sides.

use swept_area::SidedPiece;

/// The boundary pieces that begin in a strip, in order, each with its side; or that they are more than a cap.
#[derive(Debug, Drop)]
pub enum SidedTile {
    Pieces(Vec<SidedPiece>),
    Oversize,
}
