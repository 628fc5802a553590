//! The picture of a layer on a grid.
ghost use Rattle.std.specs.Prelude.{◌≡◌, ◌≤◌, ◌<◌, ◌≤ℤ◌, ◌+ℤ◌, ◌*ℤ◌, None, Some, true, pos, map, length, IfOk, IfErr};
ghost use Rattle.overlay_terms.specs.Commands.{stands};
ghost use Rattle.overlay_terms.specs.Layers.{layers_max, marked_segments};
ghost use Rattle.overlay_terms.specs.Plane.{InRange};
ghost use Rattle.layer_book.specs.Fault.{RefusedBy};
ghost use Rattle.layer_book.specs.Layer.{IsBook};
ghost use Rattle.overlay_grid.specs.Grid.{all_in_range, grid_refusal, grid_text, is_within_range, side_max, step_max};
ghost use Rattle.overlay_grid.specs.Rows.{column_at, columns_of};

use crate::columns::column;
use crate::fault::GridFault;
use crate::grid_spec::GridSpec;
use crate::rising::Rise;
use crate::rows::written;
use exact_point::PointFault;
use layer_book::Layers;
use layer_book::fault::LayerFault;
use layer_expr::StepList;
use layer_expr::name::Name;
use plane_base::{BaseLayer, COORD_MAX};
use rayon::prelude::*;
use std::alloc::{AllocError, Global};
use std::thread::Threads;
use versions::Version;

/// How many columns at least one thread draws.
const LEAST_COLUMNS: usize = 32;

/// The picture of a layer: the line `grid nx ny`, then a line for each row, the lowest first, with a
/// character for each point: `#` in, `.` out, `+` on an edge. Each is answered straight from the
/// segments, whatever tiles there are, and the same whatever number of threads there is.
pub fn grid(
    rt: &(impl Threads + Sync),
    alloc: Global,
    version: &Version,
    name: &Name,
    grid: &GridSpec,
) -> Result<Vec<u8>, GridFault>
    ensures ok { IfOk result (λ text. text.items ≡ grid_text version.now.layers name.now grid.now) }
    ensures accepted { IfOk result (λ _. grid_refusal version.now.layers name.now grid.now ≡ None) }
    ensures refused { IfErr result
        (RefusedBy (GridFault.Layer LayerFault.OutOfMemory) (grid_refusal version.now.layers name.now grid.now)) }
{
    let layers = version.layers();
    admit(layers, name, grid)?;
    let bases = layers.bases_in_reach(alloc, name)?;
    let steps = layers.steps_in_reach(alloc, name)?;
    let columns = columns(rt, alloc, &bases, &steps, grid)?;
    Ok(written(alloc, grid, &columns)?)
}

/// Whether a picture can be drawn: there is such a layer, and the points are in range.
fn admit(layers: &Layers, name: &Name, grid: &GridSpec) -> Result<(), GridFault>
    ensures ok { IfOk result (λ _. grid_refusal layers.now name.now grid.now ≡ None) }
    ensures standing { IfOk result (λ _. stands layers.now name.now ≡ true) }
    ensures within { IfOk result (λ _. is_within_range grid.now ≡ true) }
    ensures refused { IfErr result (λ fault. grid_refusal layers.now name.now grid.now ≡ Some fault) }
{
    if !layers.stands(name) {
        return Err(GridFault::Layer(LayerFault::UnknownLayer));
    }
    if !is_within_range(grid) {
        return Err(GridFault::Point(PointFault::PointRange));
    }
    Ok(())
}

/// Whether each point is in range.
fn is_within_range(grid: &GridSpec) -> bool
    ensures { result ≡ is_within_range grid.now }
{
    // Eager, so that one equation says all: neither side costs more than two comparisons.
    all_in_range(grid.x(), grid.step(), grid.nx()) & all_in_range(grid.y(), grid.step(), grid.ny())
}

/// Whether so many coordinates at equal steps are in range: the first and the last are.
fn all_in_range(from: i64, step: i64, count: usize) -> bool
    requires step_low { pos 1 ≤ℤ step }
    requires step_high { step ≤ℤ pos step_max }
    requires some { 1 ≤ count }
    requires few { count ≤ side_max }
    ensures { result ≡ all_in_range from step count }
{
    if from < -COORD_MAX || from > COORD_MAX {
        return false;
    }
    coordinate(from, step, count - 1) <= COORD_MAX
}

/// The coordinate so many steps on.
fn coordinate(from: i64, step: i64, i: usize) -> i64
    requires from_small { InRange from }
    requires step_low { pos 1 ≤ℤ step }
    requires step_high { step ≤ℤ pos step_max }
    requires few { i < side_max }
    ensures { result ≡ from +ℤ (step *ℤ pos i) }
{
    from + step * i as i64
}

/// All columns of a picture, in threads by the number of processors.
fn columns(
    rt: &(impl Threads + Sync),
    alloc: Global,
    bases: &[&BaseLayer],
    steps: &StepList,
    grid: &GridSpec,
) -> Result<Vec<Vec<u8>>, AllocError>
    requires few { length bases.now ≤ layers_max }
    requires within { is_within_range grid.now ≡ true }
    ensures { IfOk result (λ columns. map (λ c. c.items) columns.items
        ≡ columns_of (marked_segments (map (λ b. b.now) bases.now)) steps.now grid.now) }
{
    (0..grid.nx())
        .into_par_iter()
        .with_min_len(LEAST_COLUMNS)
        .map(
            |i: usize| -> Result<Vec<u8>, AllocError>
                requires near { i < grid.now.nx }
                requires few { length bases.now ≤ layers_max }
                requires within { is_within_range grid.now ≡ true }
                ensures { IfOk result (λ v. v.items
                    ≡ column_at (marked_segments (map (λ b. b.now) bases.entry.now)) steps.entry.now grid.entry.now i) }
            { drawn(alloc, bases, steps, grid, i) },
        )
        .collect::<Result<Vec<Vec<u8>>, AllocError>>(rt, alloc)?
}

/// One column of a picture.
fn drawn(
    alloc: Global,
    bases: &[&BaseLayer],
    steps: &StepList,
    grid: &GridSpec,
    i: usize,
) -> Result<Vec<u8>, AllocError>
    requires few { length bases.now ≤ layers_max }
    requires within { is_within_range grid.now ≡ true }
    requires near { i < grid.now.nx }
    ensures { IfOk result (λ column. column.items
        ≡ column_at (marked_segments (map (λ b. b.now) bases.now)) steps.now grid.now i) }
{
    column(alloc, bases, steps, rise(grid, i), grid.ny())
}

/// The points of a column.
fn rise(grid: &GridSpec, i: usize) -> Rise
    requires within { is_within_range grid.now ≡ true }
    requires near { i < grid.now.nx }
    ensures x { result.x ≡ grid.now.x +ℤ (grid.now.step *ℤ pos i) }
    ensures y { result.y ≡ grid.now.y }
    ensures step { result.step ≡ grid.now.step }
{
    Rise {
        x: coordinate(grid.x(), grid.step(), i),
        y: grid.y(),
        step: grid.step(),
    }
}
