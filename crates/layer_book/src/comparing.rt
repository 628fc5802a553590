//! Base layers compared by what of them lies in a column.
ghost use Rattle.std.specs.Prelude.{◌≡◌, ◌≤◌, ◌-◌, ℕ, true, not, Some, map, filter, take, drop, length, slice_get};
ghost use Rattle.std.specs.Cmp.Lexicographic.{pointwise};
ghost use Rattle.overlay_terms.specs.Plane.{Segment};
ghost use Rattle.overlay_terms.specs.Column.{columns, touches};
ghost use Rattle.overlay_terms.specs.SameInput.{same_marked, same_segment};
ghost use Rattle.layer_book.specs.Touching.{marked_in, same_in};

use crate::touching::COLUMNS;
use arrange::touches;
use plane_base::{BaseLayer, COLUMN_COUNT, Column, Seg};

/// In which columns as many base layers have other segments.
pub(crate) fn changed_columns(new: &[&BaseLayer], old: &[&BaseLayer]) -> [bool; COLUMNS]
    requires { length new.now ≡ length old.now }
    ensures { result ≡ map (λ k. not
        (pointwise same_marked (marked_in k (map (λ b. b.now) new.now))
        (marked_in k (map (λ b. b.now) old.now)))) columns }
{
    let mut changed = [false; COLUMNS];
    for number in 0..COLUMN_COUNT {
        if let Some(column) = Column::new(u64::from(number)) {
            changed[usize::from(number)] = !are_same_in(column, new, old);
        }
    }
    changed
}

/// In which columns two lists have other segments.
pub(crate) fn differing_columns(new: &[Seg], old: &[Seg]) -> [bool; COLUMNS]
    ensures { result ≡ map (λ k. not (same_in k new.now old.now)) columns }
{
    let (new_middle, old_middle) = between_common_ends(new, old);
    let mut differing = [false; COLUMNS];
    for number in 0..COLUMN_COUNT {
        if let Some(column) = Column::new(u64::from(number)) {
            differing[usize::from(number)] = !is_same_in(column, new_middle, old_middle);
        }
    }
    differing
}

/// What is left of two lists without the segments with which both begin, and without those with which both rests end.
/// Where one point of an outline was moved, little is left.
fn between_common_ends<'a>(new: &'a [Seg], old: &'a [Seg]) -> (&'a [Seg], &'a [Seg])
    ensures { (k : ℕ) → same_in k result.0.now result.1.now ≡ same_in k new.now old.now }
{
    let front = common_front(new, old);
    let new_rest = &new[front..];
    let old_rest = &old[front..];
    let end = common_end(new_rest, old_rest);
    (
        &new_rest[..new_rest.len() - end],
        &old_rest[..old_rest.len() - end],
    )
}

/// With how many segments both lists begin.
fn common_front(new: &[Seg], old: &[Seg]) -> usize
    ensures in_new { result ≤ length new.now }
    ensures in_old { result ≤ length old.now }
    ensures same { take result new.now ≡ take result old.now }
{
    let shorter = new.len().min(old.len());
    for front in 0..shorter {
        if !is_same(&new[front], &old[front]) {
            return front;
        }
    }
    shorter
}

/// With how many segments both lists end.
fn common_end(new: &[Seg], old: &[Seg]) -> usize
    ensures in_new { result ≤ length new.now }
    ensures in_old { result ≤ length old.now }
    ensures same { drop (length new.now - result) new.now ≡ drop (length old.now - result) old.now }
{
    let shorter = new.len().min(old.len());
    for end in 0..shorter {
        if !is_same(&new[new.len() - 1 - end], &old[old.len() - 1 - end]) {
            return end;
        }
    }
    shorter
}

/// Whether as many base layers have the same segments in a column, in the same order.
fn are_same_in(column: Column, new: &[&BaseLayer], old: &[&BaseLayer]) -> bool
    requires { length new.now ≡ length old.now }
    ensures { result ≡ pointwise same_marked (marked_in column (map (λ b. b.now) new.now))
        (marked_in column (map (λ b. b.now) old.now)) }
{
    for i in 0..new.len() {
        if !is_same_in(column, new[i].segs(), old[i].segs()) {
            return false;
        }
    }
    true
}

/// Whether two lists have the same segments in a column, in the same order.
fn is_same_in(column: Column, new: &[Seg], old: &[Seg]) -> bool
    ensures { result ≡ same_in column new.now old.now }
{
    let mut next = 0;
    for seg in new {
        if touches(column, *seg) {
            next = first_in(column, old, next);
            if next >= old.len() || !is_same(seg, &old[next]) {
                return false;
            }
            next += 1;
        }
    }
    first_in(column, old, next) >= old.len()
}

/// Whether two segments have the same ends.
fn is_same(seg: &Seg, other: &Seg) -> bool
    ensures { result ≡ same_segment seg.now other.now }
{
    seg == other
}

/// The index of the first segment with a point in the column, from an index on, or how many segments
/// there are.
fn first_in(column: Column, segs: &[Seg], from: usize) -> usize
    requires { from ≤ length segs.now }
    ensures within { result ≤ length segs.now }
    ensures same { filter (touches column) (drop from segs.now) ≡ filter (touches column) (drop result segs.now) }
    ensures there { (s : Segment) → slice_get segs.now result ≡ Some s → touches column s ≡ true }
{
    for i in from..segs.len() {
        if touches(column, segs[i]) {
            return i;
        }
    }
    segs.len()
}
