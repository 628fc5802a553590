//! Rings joined from pieces of which each one's next is given.
ghost use Rattle.std.specs.Prelude.{◌≡◌, ◌+◌, ◌<◌, Bool, false, get_or, length, All, IfErr, IfOk, OnOk};
ghost use Rattle.ring_joining.specs.Outline.{in_ring, AreSet, IsJoined, IsOutline, IsRing};
ghost use Rattle.ring_joining.specs.Following.{AreNexts, Follows, IsWhole};
ghost use Rattle.ring_joining.specs.declared.fault.JoinFault.TheVariants as faults;

use crate::fault::JoinFault;
use crate::piece::NumberedPiece;
use crate::ring::PieceRing;
use std::alloc::Global;

/// The ring from a piece on until it comes back. A flag is set for each piece that is passed.
fn ring_from(
    alloc: Global,
    pieces: &[NumberedPiece],
    nexts: &[usize],
    start: usize,
    passed: &mut Vec<bool>,
) -> Result<PieceRing, JoinFault>
    requires start { start < length pieces.now }
    requires nexts { length nexts.now ≡ length pieces.now }
    requires flags { length passed.old.items ≡ length pieces.now }
    ensures ring { IfOk result (λ ring. IsRing pieces.now ring) }
    ensures follows { IfOk result (λ ring. Follows nexts.now ring) }
    ensures begins { IfOk result (λ ring. in_ring ring 0 ≡ start) }
    ensures passed { IfOk result (λ ring. AreSet passed.old.items passed.new.items ring) }
    ensures closed { AreNexts pieces.now nexts.now → IsWhole pieces.now nexts.now passed.old.items
        → ((d : Bool) → get_or passed.old.items start d ≡ false) → IfErr result (λ fault. fault ≡ faults.OutOfMemory) }
    ensures whole { AreNexts pieces.now nexts.now → IsWhole pieces.now nexts.now passed.old.items
        → ((d : Bool) → get_or passed.old.items start d ≡ false) → IfOk result (λ _. IsWhole pieces.now nexts.now passed.new.items) }
{
    let mut ring = Vec::new(alloc);
    let mut at = start;
    for _ in 0..pieces.len() {
        if passed[at] {
            return Err(JoinFault::NotClosed);
        }
        passed[at] = true;
        ring.push(at)?;
        let next = nexts[at];
        if next >= pieces.len() || pieces[at].to != pieces[next].from {
            return Err(JoinFault::NotClosed);
        }
        if next == start {
            return Ok(PieceRing { pieces: ring });
        }
        at = next;
    }
    Err(JoinFault::NotClosed)
}

/// Adds the ring from a piece on, where that piece is in none so far.
fn join_from(
    alloc: Global,
    pieces: &[NumberedPiece],
    nexts: &[usize],
    start: usize,
    passed: &mut Vec<bool>,
    rings: &mut Vec<PieceRing>,
) -> Result<(), JoinFault>
    requires start { start < length pieces.now }
    requires nexts { length nexts.now ≡ length pieces.now }
    requires so_far { IsJoined pieces.now passed.old.items rings.old.items start }
    requires follow { All (Follows nexts.now) rings.old.items }
    ensures joined { OnOk result (IsJoined pieces.now passed.new.items rings.new.items (start + 1)) }
    ensures follow { OnOk result (All (Follows nexts.now) rings.new.items) }
    ensures closed { AreNexts pieces.now nexts.now → IsWhole pieces.now nexts.now passed.old.items
        → IfErr result (λ fault. fault ≡ faults.OutOfMemory) }
    ensures whole { AreNexts pieces.now nexts.now → IsWhole pieces.now nexts.now passed.old.items
        → OnOk result (IsWhole pieces.now nexts.now passed.new.items) }
{
    if passed[start] {
        return Ok(());
    }
    let ring = ring_from(alloc, pieces, nexts, start, passed)?;
    rings.push(ring)?;
    Ok(())
}

/// The rings of some pieces. `nexts` has for each piece the number of the one that follows it.
pub fn join(
    alloc: Global,
    pieces: &[NumberedPiece],
    nexts: &[usize],
) -> Result<Vec<PieceRing>, JoinFault>
    requires nexts { length nexts.now ≡ length pieces.now }
    ensures outline { IfOk result (λ rings. IsOutline pieces.now rings.items) }
    ensures follows { IfOk result (λ rings. All (Follows nexts.now) rings.items) }
    ensures closed { AreNexts pieces.now nexts.now → IfErr result (λ fault. fault ≡ faults.OutOfMemory) }
{
    let mut passed = vec![in alloc; false; pieces.len()]?;
    let mut rings = Vec::new(alloc);
    for start in 0..pieces.len() {
        join_from(alloc, pieces, nexts, start, &mut passed, &mut rings)?;
    }
    Ok(rings)
}
