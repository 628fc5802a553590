//! The ends of pieces, in order.
ghost use Rattle.std.specs.Prelude.{◌≡◌, IfOk};
ghost use Rattle.ring_joining.specs.Following.{end_of, ends_of, AreSortedEnds};

use crate::piece::NumberedPiece;
use std::alloc::{AllocError, Global};

/// Where a piece begins or ends, its rank there, and its number.
#[derive(Clone, Copy, Debug)]
pub struct PieceEnd {
    pub(crate) place: usize,
    pub(crate) rank: usize,
    pub(crate) piece: usize,
}

/// Where a piece with a number begins, or else where it ends.
fn end(is_first: bool, piece: &NumberedPiece, number: usize) -> PieceEnd
    ensures { result ≡ end_of is_first piece.now number }
{
    if is_first {
        return PieceEnd {
            place: piece.from,
            rank: piece.from_rank,
            piece: number,
        };
    }
    PieceEnd {
        place: piece.to,
        rank: piece.to_rank,
        piece: number,
    }
}

/// Where pieces begin, or else where they end.
fn ends(
    alloc: Global,
    pieces: &[NumberedPiece],
    is_first: bool,
) -> Result<Vec<PieceEnd>, AllocError>
    ensures { IfOk result (λ ends. ends.items ≡ ends_of is_first pieces.now) }
{
    let mut ends = Vec::new(alloc);
    for number in 0..pieces.len() {
        ends.push(end(is_first, &pieces[number], number))?;
    }
    Ok(ends)
}

/// The same by place, and by rank where they are in one place.
pub(crate) fn sorted_ends(
    alloc: Global,
    pieces: &[NumberedPiece],
    is_first: bool,
) -> Result<Vec<PieceEnd>, AllocError>
    ensures { IfOk result (λ ends. AreSortedEnds is_first pieces.now ends.items) }
{
    let mut ends = ends(alloc, pieces, is_first)?;
    ends.sort_unstable_by_key(|end| (end.place, end.rank));
    Ok(ends)
}
