//! Collinear segments, cut at each other's ends: sorted by their lines, and cut a line at a time.
ghost use Rattle.std.specs.Prelude.{◌≡◌, ◌<◌, ◌≤◌, ℕ, [], ◌∷◌, All, IfOk, OnOk, map, length, get_or};
ghost use Rattle.std.specs.List.Sorted.{IsPermutation, IsSorted};
ghost use Rattle.std.specs.declared.cmp.Ordering.TheVariants.{Equal};
ghost use Rattle.arrange.specs.declared.line_seg.LineSeg.{LineSeg};
ghost use Rattle.overlay_terms.specs.Layers.{layers_max};
ghost use Rattle.arrange.specs.Marked.{AllProper, marked_of};
ghost use Rattle.arrange.specs.LineEnds.{AreInOrder, AreOnOneLine, both_ends};
ghost use Rattle.arrange.specs.Lines.{line_cmp, line_marked};
ghost use Rattle.arrange.specs.AddedUnits.{HasAddedUnits};
ghost use Rattle.arrange.specs.Units.{AreUnits};

use crate::line_end::LineEnd;
use crate::line_seg::LineSeg;
use crate::marked_seg::MarkedSeg;
use crate::passed_ends::PassedEnds;
use crate::tile_input::TileInput;
use crate::unit::Unit;
use std::alloc::{AllocError, Global};

/// The units of the input's segments. A unit with no bit is one too: its ends are nodes.
pub fn units(alloc: Global, input: &TileInput) -> Result<Vec<Unit>, AllocError>
    ensures { IfOk result (λ list. AreUnits input.now.marked list.items) }
{
    units_of(alloc, input.marked())
}

/// The units of some segments, as of those of a strip.
pub fn units_of(alloc: Global, marked: &[MarkedSeg]) -> Result<Vec<Unit>, AllocError>
    requires layers { All (λ m. m.layer < layers_max) marked.now }
    requires proper { AllProper (map marked_of marked.now) }
    ensures { IfOk result (λ list. AreUnits (map marked_of marked.now) list.items) }
{
    let lines = by_line(alloc, marked)?;
    let mut list = Vec::with_capacity(alloc, lines.len())?;
    let mut start = 0;
    while start < lines.len() {
        let end = line_end(&lines, start);
        add_units(alloc, &mut list, &lines[start..end])?;
        start = end;
    }
    Ok(list)
}

/// The segments in the order of their lines.
fn by_line(alloc: Global, marked: &[MarkedSeg]) -> Result<Vec<LineSeg>, AllocError>
    requires layers { All (λ m. m.layer < layers_max) marked.now }
    requires proper { AllProper (map marked_of marked.now) }
    ensures moved { IfOk result (λ list. IsPermutation (map marked_of marked.now) (map line_marked list.items)) }
    ensures sorted { IfOk result (λ list. IsSorted line_cmp list.items) }
{
    let mut lines = lines_of(alloc, marked)?;
    lines.sort_unstable();
    Ok(lines)
}

/// The segments as segments with a line.
fn lines_of(alloc: Global, marked: &[MarkedSeg]) -> Result<Vec<LineSeg>, AllocError>
    requires layers { All (λ m. m.layer < layers_max) marked.now }
    requires proper { AllProper (map marked_of marked.now) }
    ensures { IfOk result (λ list. map line_marked list.items ≡ map marked_of marked.now) }
{
    let mut lines = Vec::with_capacity(alloc, marked.len())?;
    for m in marked {
        lines.push(LineSeg::of(*m))?;
    }
    Ok(lines)
}

/// Where the segments on the line of one end, among segments in the order of their lines.
fn line_end(lines: &[LineSeg], start: usize) -> usize
    requires { start < length lines.now }
    ensures after { start < result }
    ensures within { result ≤ length lines.now }
    ensures same { (k : ℕ) (d : LineSeg) → start ≤ k → k < result
        → line_cmp (get_or lines.now start d) (get_or lines.now k d) ≡ Equal }
    ensures next { (d : LineSeg) → result < length lines.now
        → line_cmp (get_or lines.now start d) (get_or lines.now result d) ≡ Equal → ⊥ }
{
    for end in start + 1..lines.len() {
        if lines[start] != lines[end] {
            return end;
        }
    }
    lines.len()
}

/// Adds the units of the segments on one line. Mostly there is one segment, and no memory is taken but for its unit.
fn add_units(alloc: Global, list: &mut Vec<Unit>, run: &[LineSeg]) -> Result<(), AllocError>
    requires { AreOnOneLine run.now }
    ensures { OnOk result (HasAddedUnits (map line_marked run.now) list.old.items list.new.items) }
{
    if run.len() == 1 {
        return add_lone(list, &run[0]);
    }
    let mut more = units_on_line(alloc, run)?;
    list.append(&mut more)?;
    Ok(())
}

/// Adds the unit of a segment that is alone on its line.
fn add_lone(list: &mut Vec<Unit>, segment: &LineSeg) -> Result<(), AllocError>
    requires { AreOnOneLine (segment.now ∷ []) }
    ensures { OnOk result (HasAddedUnits (line_marked segment.now ∷ []) list.old.items list.new.items) }
{
    let from = LineEnd::left_of(&segment.marked);
    let to = LineEnd::right_of(&segment.marked);
    let mut passed = PassedEnds::none();
    passed.add(&from);
    if let Some(unit) = passed.unit_between(from.at, to.at) {
        list.push(unit)?;
    }
    Ok(())
}

/// The units of the segments on one line, found by one pass over their ends.
fn units_on_line(alloc: Global, run: &[LineSeg]) -> Result<Vec<Unit>, AllocError>
    requires { AreOnOneLine run.now }
    ensures { IfOk result (λ list. AreUnits (map line_marked run.now) list.items) }
{
    let ends = ends_in_order(alloc, run)?;
    let mut list = Vec::with_capacity(alloc, ends.len())?;
    let mut passed = PassedEnds::none();
    for i in 1..ends.len() {
        passed.add(&ends[i - 1]);
        if let Some(unit) = passed.unit_between(ends[i - 1].at, ends[i].at) {
            list.push(unit)?;
        }
    }
    Ok(list)
}

/// The ends of the segments on one line, from left to right.
fn ends_in_order(alloc: Global, run: &[LineSeg]) -> Result<Vec<LineEnd>, AllocError>
    ensures moved { IfOk result (λ list. IsPermutation (both_ends (map line_marked run.now)) list.items) }
    ensures in_order { IfOk result (λ list. AreInOrder list.items) }
{
    let mut ends = ends_of(alloc, run)?;
    ends.sort_unstable_by_key(|end| end.at);
    Ok(ends)
}

/// Both ends of each of the segments.
fn ends_of(alloc: Global, run: &[LineSeg]) -> Result<Vec<LineEnd>, AllocError>
    ensures { IfOk result (λ list. list.items ≡ both_ends (map line_marked run.now)) }
{
    let mut ends = Vec::with_capacity(alloc, run.len().saturating_mul(2))?;
    for segment in run {
        ends.push(LineEnd::left_of(&segment.marked))?;
        ends.push(LineEnd::right_of(&segment.marked))?;
    }
    Ok(ends)
}
