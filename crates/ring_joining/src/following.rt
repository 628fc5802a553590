//! Which piece follows which.
ghost use Rattle.std.specs.Prelude.{◌≡◌, length, IfOk, IfErr};
ghost use Rattle.ring_joining.specs.Following.{ArePaired, AreNexts, AreByOrder, AreDistinct, IsBalanced, IsInOrder};
ghost use Rattle.ring_joining.specs.Outline.{IsOutline};
ghost use Rattle.ring_joining.specs.declared.fault.JoinFault.TheVariants as faults;

use crate::ending::{PieceEnd, sorted_ends};
use crate::fault::JoinFault;
use crate::joining::join;
use crate::piece::NumberedPiece;
use crate::ring::PieceRing;
use std::alloc::{AllocError, Global};

/// For each piece the one whose beginning stands where its own end stands in the other list.
fn paired(alloc: Global, starts: &[PieceEnd], ends: &[PieceEnd]) -> Result<Vec<usize>, AllocError>
    requires alike { length starts.now ≡ length ends.now }
    requires distinct { AreDistinct ends.now }
    ensures { IfOk result (λ nexts. ArePaired starts.now ends.now nexts.items) }
{
    let mut nexts = vec![in alloc; 0; ends.len()]?;
    for k in 0..ends.len() {
        nexts[ends[k].piece] = starts[k].piece;
    }
    Ok(nexts)
}

/// The number of the piece that follows each one. With pieces in the order of their ends, by place and by rank there, and
/// in that of their beginnings, the first in one is followed by the first in the other, and so on.
pub fn successors(alloc: Global, pieces: &[NumberedPiece]) -> Result<Vec<usize>, AllocError>
    ensures order { IfOk result (λ nexts. IsInOrder pieces.now nexts.items) }
    ensures nexts { IsBalanced pieces.now → IfOk result (λ nexts. AreNexts pieces.now nexts.items) }
{
    let starts = sorted_ends(alloc, pieces, true)?;
    let ends = sorted_ends(alloc, pieces, false)?;
    paired(alloc, &starts, &ends)
}

/// The rings of some pieces, each from a piece to its successor. They are never refused where each place has as many
/// beginnings as ends.
pub fn outline(alloc: Global, pieces: &[NumberedPiece]) -> Result<Vec<PieceRing>, JoinFault>
    ensures outline { IfOk result (λ rings. IsOutline pieces.now rings.items) }
    ensures order { IfOk result (λ rings. AreByOrder pieces.now rings.items) }
    ensures balanced { IsBalanced pieces.now → IfErr result (λ fault. fault ≡ faults.OutOfMemory) }
{
    let nexts = successors(alloc, pieces)?;
    join(alloc, pieces, &nexts)
}
