//! The ends of pieces, by their names. What a name says of its place is not worked out: whole points and segments are
//! compared as they are, and only what they leave open asks for exact coordinates.
ghost use Rattle.std.specs.Prelude.{◌≡◌, ◌==◌, ◌↔◌, IsTrue};
ghost use Rattle.overlay_terms.specs.Column.{is_in_column};
ghost use Rattle.overlay_terms.specs.Plane.{whole, same_whole, point_cmp, is_on};
ghost use Rattle.overlay_terms.specs.SameInput.{same_segment};
ghost use Rattle.exact_point.specs.Place.{place};
ghost use Rattle.exact_point.specs.PlaceOf.{place_of};
ghost use Rattle.exact_point.specs.PointName.{HasPlace, IsPlaceOf};
ghost use Rattle.tile_build.specs.Piece.{IsBetween};

use exact_point::{HPoint, PointName, is_in, on};
use plane_base::{Column, Pt, Seg};
use std::cmp::Ordering;

/// Whether two names have places on a segment, the first left of the second.
pub fn are_ends(support: &Seg, from: &PointName, to: &PointName) -> bool
    ensures between { IsTrue result ↔ IsBetween support.now from.now to.now }
    ensures placed { IsTrue result → IsPlaceOf from.now (place_of from.now) × IsPlaceOf to.now (place_of to.now) }
{
    match (from, to) {
        (PointName::Vertex(left), PointName::Vertex(right)) => {
            are_whole_ends(support, *left, *right)
        }
        _ => are_exact_ends(support, from, to),
    }
}

/// The same of whole points.
pub fn are_whole_ends(support: &Seg, left: Pt, right: Pt) -> bool
    ensures { IsTrue result ↔ IsBetween support.now (PointName.Vertex left) (PointName.Vertex right) }
{
    if !is_whole_on(support, left) {
        return false;
    }
    if !is_whole_on(support, right) {
        return false;
    }
    left.cmp(&right).is_lt()
}

/// The same by exact coordinates.
fn are_exact_ends(support: &Seg, from: &PointName, to: &PointName) -> bool
    ensures between { IsTrue result ↔ IsBetween support.now from.now to.now }
    ensures placed { IsTrue result → IsPlaceOf from.now (place_of from.now) × IsPlaceOf to.now (place_of to.now) }
{
    let Some(left) = from.point() else {
        return false;
    };
    let Some(right) = to.point() else {
        return false;
    };
    if !lies_on(support, from, &left) {
        return false;
    }
    if !lies_on(support, to, &right) {
        return false;
    }
    left.cmp(&right).is_lt()
}

/// Whether the place of a name lies on a segment.
fn lies_on(support: &Seg, name: &PointName, at: &HPoint) -> bool
    requires is { place at.now ≡ place_of name.now }
    requires stands { IsPlaceOf name.now (place at.now) }
    ensures { result ≡ is_on support.now (place at.now) }
{
    if is_made_of(support, name) {
        return true;
    }
    on(support, at)
}

/// Whether a name is made of a segment, so that its place, if it has one, is on it.
fn is_made_of(support: &Seg, name: &PointName) -> bool
    ensures { IsTrue result → IsPlaceOf name.now (place_of name.now) → IsTrue (is_on support.now (place_of name.now)) }
{
    match name {
        PointName::Vertex(vertex) => is_end(support, *vertex),
        PointName::Cross(first, second) => is_same(first, support) || is_same(second, support),
        PointName::Border(cut, _) => is_same(cut, support),
    }
}

/// Whether a whole point lies on a segment.
fn is_whole_on(support: &Seg, vertex: Pt) -> bool
    ensures { result ≡ is_on support.now (whole vertex) }
{
    if is_end(support, vertex) {
        return true;
    }
    on(support, &HPoint::of(vertex))
}

/// Whether a whole point is an end of a segment, and so lies on it.
fn is_end(support: &Seg, vertex: Pt) -> bool
    ensures { IsTrue result → IsTrue (is_on support.now (whole vertex)) }
{
    if is_one(vertex, support.left()) {
        return true;
    }
    is_one(vertex, support.right())
}

/// Whether two segments have the same ends.
fn is_same(seg: &Seg, other: &Seg) -> bool
    ensures { result ≡ same_segment seg.now other.now }
{
    seg == other
}

/// Whether two whole points are one.
fn is_one(vertex: Pt, other: Pt) -> bool
    ensures { result ≡ same_whole vertex other }
{
    vertex == other
}

/// The places of two names, in the order of points.
pub(crate) fn name_cmp(name: &PointName, other: &PointName) -> Ordering
    requires here { HasPlace name.now }
    requires there { HasPlace other.now }
    ensures { result ≡ point_cmp (place_of name.now) (place_of other.now) }
{
    match (name, other) {
        (PointName::Vertex(vertex), PointName::Vertex(next)) => vertex.cmp(next),
        _ => name.known_point().cmp(&other.known_point()),
    }
}

/// Whether the place of a name lies in a column.
pub(crate) fn is_name_in(column: Column, name: &PointName) -> bool
    requires { HasPlace name.now }
    ensures { result ≡ is_in_column column (place_of name.now) }
{
    match name {
        PointName::Vertex(vertex) => is_whole_in(column, *vertex),
        // The places on a border lie in the column with its number.
        PointName::Border(_, number) => column.number() == *number,
        PointName::Cross(_, _) => is_in(column, &name.known_point()),
    }
}

/// Whether a whole point lies in a column.
#[tactic(auto, using(crate::proofs::EndLemmas::whole_in))]
fn is_whole_in(column: Column, vertex: Pt) -> bool
    ensures { result ≡ is_in_column column (whole vertex) }
{
    let x = vertex.x();
    // Eager, so that one equation says all: neither side costs more than a comparison.
    (column.border() <= x) & (x < column.end())
}
