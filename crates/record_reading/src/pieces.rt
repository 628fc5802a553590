//! Pieces at the front of some bytes.
ghost use Rattle.std.specs.Prelude.{◌≡◌, ◌↔◌, ℕ, List, Some, IfOk, IfErr, IsTrue};
ghost use Rattle.tile_build.specs.Piece.{IsBetween};
ghost use Rattle.record_reading.specs.Answers.{Fails, Gives};
ghost use Rattle.record_reading.specs.Added.{IsAdded};
ghost use Rattle.record_reading.specs.PieceOrder.{are_in_order};
ghost use Rattle.store_terms.specs.Fields.{read_many};
ghost use Rattle.store_terms.specs.TileRecord.{piece as spelled, point_name, segment};

use crate::fault::ReadFault;
use crate::piece_order::is_last_placed;
use crate::segments::{crossing_in, point_name_at, segment_at, segment_in, vertex_in};
use exact_point::PointName;
use plane_base::{Column, Pt, Seg};
use std::alloc::Global;
use tile_build::Piece;
use tile_build::ends::{are_ends, are_whole_ends};

/// So many pieces, one after another, whether they begin in a column and rise, and what follows them. Each is asked
/// while it is at hand: to go over all of them again would take longer than to read them.
pub(crate) fn pieces_at(
    alloc: Global,
    column: Column,
    count: u32,
    bytes: &[u8],
) -> Result<(Vec<Piece>, bool, &[u8]), ReadFault>
    ensures pieces { Gives (λ x. (x.0.items, x.2.now)) result (read_many spelled.read count bytes.now) }
    ensures ordered { IfOk result (λ x. x.1 ≡ are_in_order column x.0.items) }
{
    let mut pieces = Vec::new(alloc);
    let mut stand = true;
    let mut rest = bytes;
    for _ in 0..count {
        rest = push_piece(&mut pieces, rest)?;
        stand = stand & is_last_placed(&pieces, column);
    }
    Ok((pieces, stand, rest))
}

/// Adds the piece at the front of some bytes, and gives what follows it. It is made in its place in the vector: what
/// holds it elsewhere would be filled and copied as a whole. One between whole points, as most are, is read without
/// the names.
fn push_piece<'a>(pieces: &mut Vec<Piece>, bytes: &'a [u8]) -> Result<&'a [u8], ReadFault>
    ensures ok { IfOk result (λ rest. IsAdded spelled bytes.now rest.now pieces.old.items pieces.new.items) }
    ensures err { IfErr result (λ fault. Fails fault (spelled.read bytes.now)) }
{
    // A segment has 16 bytes, the name of a whole point 9.
    if bytes.len() < 34 {
        return push_any(pieces, bytes);
    }
    match &segment_in(bytes) {
        Some(support) => match vertex_in(&bytes[16..]) {
            Some(from) => match vertex_in(&bytes[25..]) {
                Some(to) => {
                    if !are_piece_ends(support, from, to) {
                        return Err(ReadFault::Form);
                    }
                    pieces.reserve(1)?;
                    pieces.push_reserved(Piece::between(
                        *support,
                        PointName::Vertex(from),
                        PointName::Vertex(to),
                    ));
                    Ok(&bytes[34..])
                }
                None => push_from(pieces, support, &PointName::Vertex(from), &bytes[25..]),
            },
            None => push_named(pieces, support, &bytes[16..]),
        },
        None => Err(ReadFault::Form),
    }
}

/// The same of fewer bytes, too few for any piece, whichever names it has.
fn push_any<'a>(pieces: &mut Vec<Piece>, bytes: &'a [u8]) -> Result<&'a [u8], ReadFault>
    ensures ok { IfOk result (λ rest. IsAdded spelled bytes.now rest.now pieces.old.items pieces.new.items) }
    ensures err { IfErr result (λ fault. Fails fault (spelled.read bytes.now)) }
{
    match segment_at(bytes) {
        Ok(support) => push_named(pieces, &support.0, support.1),
        Err(fault) => Err(fault),
    }
}

/// The same after its segment, whatever names its ends have.
fn push_named<'a>(
    pieces: &mut Vec<Piece>,
    support: &Seg,
    bytes: &'a [u8],
) -> Result<&'a [u8], ReadFault>
    ensures ok { (all : List ℕ) → segment.read all ≡ Some (support.now, bytes.now)
        → IfOk result (λ rest. IsAdded spelled all rest.now pieces.old.items pieces.new.items) }
    ensures err { (all : List ℕ) → segment.read all ≡ Some (support.now, bytes.now)
        → IfErr result (λ fault. Fails fault (spelled.read all)) }
{
    match &crossing_in(bytes) {
        Some(from) => push_from(pieces, support, from, &bytes[33..]),
        None => match point_name_at(bytes) {
            Ok(from) => push_from(pieces, support, &from.0, from.1),
            Err(fault) => Err(fault),
        },
    }
}

/// The same after the name of its left end.
fn push_from<'a>(
    pieces: &mut Vec<Piece>,
    support: &Seg,
    from: &PointName,
    bytes: &'a [u8],
) -> Result<&'a [u8], ReadFault>
    ensures ok { (all behind : List ℕ) → segment.read all ≡ Some (support.now, behind)
        → point_name.read behind ≡ Some (from.now, bytes.now)
        → IfOk result (λ rest. IsAdded spelled all rest.now pieces.old.items pieces.new.items) }
    ensures err { (all behind : List ℕ) → segment.read all ≡ Some (support.now, behind)
        → point_name.read behind ≡ Some (from.now, bytes.now)
        → IfErr result (λ fault. Fails fault (spelled.read all)) }
{
    match &crossing_in(bytes) {
        Some(to) => match push_between(pieces, support, from, to) {
            Ok(_) => Ok(&bytes[33..]),
            Err(fault) => Err(fault),
        },
        None => match point_name_at(bytes) {
            Ok(to) => match push_between(pieces, support, from, &to.0) {
                Ok(_) => Ok(to.1),
                Err(fault) => Err(fault),
            },
            Err(fault) => Err(fault),
        },
    }
}

/// The same after the names of both ends.
fn push_between(
    pieces: &mut Vec<Piece>,
    support: &Seg,
    from: &PointName,
    to: &PointName,
) -> Result<(), ReadFault>
    ensures ok { (all behind after rest : List ℕ) → segment.read all ≡ Some (support.now, behind)
        → point_name.read behind ≡ Some (from.now, after) → point_name.read after ≡ Some (to.now, rest)
        → IfOk result (λ done. IsAdded spelled all rest pieces.old.items pieces.new.items) }
    ensures err { (all behind after rest : List ℕ) → segment.read all ≡ Some (support.now, behind)
        → point_name.read behind ≡ Some (from.now, after) → point_name.read after ≡ Some (to.now, rest)
        → IfErr result (λ fault. Fails fault (spelled.read all)) }
{
    if !are_ends(support, from, to) {
        return Err(ReadFault::Form);
    }
    pieces.reserve(1)?;
    pieces.push_reserved(Piece::between(*support, *from, *to));
    Ok(())
}

/// Whether two whole points are the ends of a piece of a segment. Most are its own ends, which lie on it in order.
fn are_piece_ends(support: &Seg, from: Pt, to: Pt) -> bool
    ensures { IsTrue result ↔ IsBetween support.now (PointName.Vertex from) (PointName.Vertex to) }
{
    if are_own_ends(support, from, to) {
        return true;
    }
    are_whole_ends(support, from, to)
}

/// Whether two whole points are the ends of a segment, the left one first.
fn are_own_ends(support: &Seg, from: Pt, to: Pt) -> bool
    ensures { IsTrue result → IsBetween support.now (PointName.Vertex from) (PointName.Vertex to) }
{
    if from != support.left() {
        return false;
    }
    to == support.right()
}
