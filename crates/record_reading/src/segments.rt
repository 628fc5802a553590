//! Segments, and the names of places, at the front of some bytes.
ghost use Rattle.record_reading.specs.Added.{before};
ghost use Rattle.std.specs.Prelude.{◌≡◌, ◌≤◌, ◌∷◌, length, drop, Some, None, IfSome, IsSome, if◌then◌else◌};
ghost use Rattle.std.specs.Ordering.{is_lt};
ghost use Rattle.overlay_terms.specs.Plane.{whole_cmp};
ghost use Rattle.record_reading.specs.Answers.{Gives};
ghost use Rattle.store_terms.specs.TileRecord.{segment, point_name};

use crate::bytes::byte_at;
use crate::fault::ReadFault;
use crate::points::{point_at, point_in};
use exact_point::PointName;
use plane_base::{Pt, Seg};

/// The segment that 16 bytes spell, its left end first, and what follows them. In this file and in
/// that of pieces a `match` is in place of `?`, which the prover does not take with such pairs, and an arm
/// names the pair: its parts by name would cost the prover several times as much.
pub(crate) fn segment_at(bytes: &[u8]) -> Result<(Seg, &[u8]), ReadFault>
    ensures { Gives (λ x. (x.0, x.1.now)) result (segment.read bytes.now) }
{
    if bytes.len() < 16 {
        return Err(ReadFault::Form);
    }
    match segment_in(bytes) {
        Some(seg) => Ok((seg, &bytes[16..])),
        None => Err(ReadFault::Form),
    }
}

/// The segment that the first 16 bytes spell.
pub(crate) fn segment_in(bytes: &[u8]) -> Option<Seg>
    requires { 16 ≤ length bytes.now }
    ensures { segment.read bytes.now ≡ before (drop 16 bytes.now) result }
{
    match point_in(bytes) {
        Some(left) => match point_in(&bytes[8..]) {
            Some(right) => segment_of(left, right),
            None => None,
        },
        None => None,
    }
}

/// The segment between two points, if the first is the left one.
fn segment_of(left: Pt, right: Pt) -> Option<Seg>
    ensures { result ≡ (if is_lt (whole_cmp left right) then Some (record { left = left; right = right }) else None) }
{
    if !left.cmp(&right).is_lt() {
        return None;
    }
    Seg::of(left, right)
}

/// The whole point that a name of nine bytes is of; none where it is of another kind, or not spelled.
pub(crate) fn vertex_in(bytes: &[u8]) -> Option<Pt>
    requires { 9 ≤ length bytes.now }
    ensures { IfSome result (λ p. point_name.read bytes.now ≡ Some (PointName.Vertex p, drop 9 bytes.now)) }
{
    if bytes[0] != 0 {
        return None;
    }
    point_in(&bytes[1..])
}

/// The crossing that a name of 33 bytes is of; none where it is of another kind, or not spelled. It is made where it
/// stays: with what follows it beside it, as below, it would be copied several times.
pub(crate) fn crossing_in(bytes: &[u8]) -> Option<PointName>
    ensures value { IfSome result (λ name. point_name.read bytes.now ≡ Some (name, drop 33 bytes.now)) }
    ensures long { IsSome result → 33 ≤ length bytes.now }
{
    if bytes.len() < 33 {
        return None;
    }
    if bytes[0] != 1 {
        return None;
    }
    match &segment_in(&bytes[1..]) {
        Some(first) => match &segment_in(&bytes[17..]) {
            Some(second) => Some(PointName::Cross(*first, *second)),
            None => None,
        },
        None => None,
    }
}

/// The name of a place, and what follows it. The name may have no place.
pub(crate) fn point_name_at(bytes: &[u8]) -> Result<(PointName, &[u8]), ReadFault>
    ensures { Gives (λ x. (x.0, x.1.now)) result (point_name.read bytes.now) }
{
    let (kind, rest) = byte_at(bytes)?;
    match kind {
        0 => vertex_at(rest),
        1 => crossing_at(rest),
        2 => border_at(rest),
        _ => Err(ReadFault::Form),
    }
}

/// The whole point that a name is of after its kind, and what follows it.
fn vertex_at(bytes: &[u8]) -> Result<(PointName, &[u8]), ReadFault>
    ensures { Gives (λ x. (x.0, x.1.now)) result (point_name.read (0 ∷ bytes.now)) }
{
    match point_at(bytes) {
        Ok(vertex) => Ok((PointName::Vertex(vertex.0), vertex.1)),
        Err(fault) => Err(fault),
    }
}

/// The crossing that a name is of after its kind, and what follows it.
fn crossing_at(bytes: &[u8]) -> Result<(PointName, &[u8]), ReadFault>
    ensures { Gives (λ x. (x.0, x.1.now)) result (point_name.read (1 ∷ bytes.now)) }
{
    match segment_at(bytes) {
        Ok(first) => match segment_at(first.1) {
            Ok(second) => Ok((PointName::Cross(first.0, second.0), second.1)),
            Err(fault) => Err(fault),
        },
        Err(fault) => Err(fault),
    }
}

/// The place at a border that a name is of after its kind, and what follows it.
fn border_at(bytes: &[u8]) -> Result<(PointName, &[u8]), ReadFault>
    ensures { Gives (λ x. (x.0, x.1.now)) result (point_name.read (2 ∷ bytes.now)) }
{
    match segment_at(bytes) {
        Ok(cut) => match byte_at(cut.1) {
            Ok(border) => Ok((PointName::Border(cut.0, border.0), border.1)),
            Err(fault) => Err(fault),
        },
        Err(fault) => Err(fault),
    }
}
