//! Columns of points: the answer at each (`#`, `.` or `+`), from all segments at once.
ghost use Rattle.std.specs.Prelude.{◌≡◌, ℕ, ◌+◌, ◌<◌, ◌≤◌, length, map, IfOk, if◌then◌else◌};
ghost use Rattle.std.specs.List.{range_with_len};
ghost use Rattle.overlay_terms.specs.Laws.{is_on_any};
ghost use Rattle.overlay_terms.specs.Layers.{layers_max, marked_segments};
ghost use Rattle.overlay_terms.specs.Plane.{is_inside};
ghost use Rattle.overlay_terms.specs.Trees.{steps_value};
ghost use Rattle.overlay_grid.specs.Column.{AreTurnedBy, column_text, is_on_marked, mark_by};
ghost use Rattle.overlay_grid.specs.Turning.{AreMarked, AreTurned, is_marked, turned};

use crate::marking::mark_segment;
use crate::rising::Rise;
use layer_expr::StepList;
use plane_base::{BaseLayer, Seg};
use std::alloc::{AllocError, Global};

/// The answers at so many of the points, from below: `#` in, `.` out, `+` on an edge. The base layers
/// are those that the steps number.
pub fn column(
    alloc: Global,
    bases: &[&BaseLayer],
    steps: &StepList,
    rise: Rise,
    count: usize,
) -> Result<Vec<u8>, AllocError>
    requires { length bases.now ≤ layers_max }
    ensures { IfOk result (λ marks. marks.items
        ≡ column_text (marked_segments (map (λ b. b.now) bases.now)) steps.now rise count) }
{
    let mut turns = vec![in alloc; 0u32; count]?;
    let mut edges = vec![in alloc; false; count]?;
    mark_bases(&mut turns, &mut edges, bases, rise);
    marks(alloc, &turns, &edges, steps)
}

/// Marks what the segments of base layers change among the points, each layer by its place.
fn mark_bases(turns: &mut [u32], edges: &mut [bool], bases: &[&BaseLayer], rise: Rise)
    requires { length bases.now ≤ layers_max }
    ensures turns_len { length turns.new ≡ length turns.old }
    ensures edges_len { length edges.new ≡ length edges.old }
    ensures turns { AreTurnedBy (marked_segments (map (λ b. b.now) bases.now)) rise turns.old turns.new }
    ensures edges { AreMarked (is_on_marked (marked_segments (map (λ b. b.now) bases.now))) rise edges.old edges.new }
{
    for k in 0..bases.len() {
        mark_layer(turns, edges, k as u8, bases[k].segs(), rise);
    }
}

/// Marks what the segments of one layer change.
fn mark_layer(turns: &mut [u32], edges: &mut [bool], layer: u8, segs: &[Seg], rise: Rise)
    requires { layer < layers_max }
    ensures turns_len { length turns.new ≡ length turns.old }
    ensures edges_len { length edges.new ≡ length edges.old }
    ensures turns { AreTurned (is_inside segs.now) layer rise turns.old turns.new }
    ensures edges { AreMarked (is_on_any segs.now) rise edges.old edges.new }
{
    for seg in segs {
        mark_segment(turns, edges, layer, seg, rise);
    }
}

/// The answers, by what has changed up to each point and where an edge is.
fn marks(
    alloc: Global,
    turns: &[u32],
    edges: &[bool],
    steps: &StepList,
) -> Result<Vec<u8>, AllocError>
    requires { length turns.now ≡ length edges.now }
    ensures { IfOk result (λ marks. marks.items
        ≡ map (λ j. mark_by (is_marked edges.now j) (steps_value steps.now (turned turns.now (j + 1))))
        (range_with_len 0 (length turns.now))) }
{
    let mut marks = Vec::with_capacity(alloc, turns.len())?;
    let mut mask = 0;
    for j in 0..turns.len() {
        mask ^= turns[j];
        marks.push(mark(edges[j], steps.value(mask)))?;
    }
    Ok(marks)
}

/// The character of an answer.
fn mark(edge: bool, inside: bool) -> u8
    ensures { result ≡ mark_by edge inside }
{
    if edge {
        b'+'
    } else if inside {
        b'#'
    } else {
        b'.'
    }
}
