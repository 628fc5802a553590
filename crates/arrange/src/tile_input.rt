//! What a tile is made of.
ghost use Rattle.std.specs.Prelude.{◌≡◌, ◌<◌, ◌≤◌, ◌++◌, None, All, map, length, IfOk, OnOk};
ghost use Rattle.overlay_terms.specs.Plane.{segments_of};
ghost use Rattle.overlay_terms.specs.Column.{touches};
ghost use Rattle.overlay_terms.specs.Layers.{layers_max, marked_segments};
ghost use Rattle.overlay_terms.specs.TileLaws.{IsInput, IsProper};
ghost use Rattle.plane_base.specs.BaseLayer.{rings_fault};
ghost use Rattle.arrange.specs.Marked.{marked_of, marked_by, kept_in, segments_max};
ghost use Rattle.arrange.specs.SameInput.{SameInputsAreEqual};

use crate::marked_seg::MarkedSeg;
use layer_expr::StepList;
use plane_base::{BaseLayer, COLUMN_COUNT, Column, Seg};
use std::alloc::{AllocError, Global};
use std::marker::Model;

/// Whether a segment has a point in a column.
pub fn touches(column: Column, seg: Seg) -> bool
    ensures value { result ≡ touches column seg }
    ensures proper { IsProper seg }
{
    // Eager, so that one equation says all: neither side costs more than a comparison.
    let after = column.border() <= seg.right().x();
    let before = seg.left().x() < column.end();
    after & before
}

/// Adds the segments of a base layer that have a point in a column, with the layer's number.
fn add_segments(
    marked: &mut Vec<MarkedSeg>,
    column: Column,
    layer: u8,
    base: &BaseLayer,
) -> Result<(), AllocError>
    ensures marked { OnOk result
        (map marked_of marked.new.items ≡ map marked_of marked.old.items ++ kept_in column (marked_by layer base.now)) }
    ensures proper { OnOk result (All IsProper (segments_of base.now)) }
    ensures valid { rings_fault base.now ≡ None }
{
    for seg in base.segs() {
        if touches(column, *seg) {
            marked.push(MarkedSeg { layer, seg: *seg })?;
        }
    }
    Ok(())
}

/// How many marked segments have a point in a column: room is made for so many at once. Only memory rests on that.
fn count_touching(column: Column, marked: &[MarkedSeg]) -> usize {
    let mut count = 0_usize;
    for one in marked {
        count = count.wrapping_add(usize::from(touches(column, one.seg)));
    }
    count
}

/// The marked segments that have a point in a column, in their order.
fn kept(alloc: Global, column: Column, marked: &[MarkedSeg]) -> Result<Vec<MarkedSeg>, AllocError>
    ensures { IfOk result (λ list. map marked_of list.items ≡ kept_in column (map marked_of marked.now)) }
{
    let mut list = Vec::with_capacity(alloc, count_touching(column, marked))?;
    for one in marked {
        if touches(column, one.seg) {
            list.push(*one)?;
        }
    }
    Ok(list)
}

/// The segments of the base layers in reach that have a point in a column, each with the number of
/// its layer, and the definitions in reach.
#[derive(Debug, Drop)]
pub struct TileInput {
    column: Column,
    marked: Vec<MarkedSeg>,
    steps: StepList,
}

impl Model for TileInput {
    ghost use Rattle.std.specs.Prelude.{◌≤◌, length, map};
    ghost use Rattle.overlay_terms.specs.Tiles.{Input};
    ghost use Rattle.overlay_terms.specs.TileLaws.{IsInput};
    ghost use Rattle.overlay_terms.specs.InputCode.{input_code};

    ghost Value = { Input };

    ghost coded = { input_code };

    ghost use Rattle.arrange.specs.Marked.{marked_of, segments_max};

    ghost view = { λ i. record { column = i.column; marked = map marked_of i.marked.items; steps = i.steps } };

    ghost invariant = { λ i. IsInput
        (record { column = i.column; marked = map marked_of i.marked.items; steps = i.steps })
        × (length (map marked_of i.marked.items) ≤ segments_max) };
}

impl TileInput {
    /// The input of a column over as many base layers as the steps know.
    pub fn of(
        alloc: Global,
        column: Column,
        bases: &[&BaseLayer],
        steps: StepList,
    ) -> Result<TileInput, AllocError>
        requires { length bases.now ≡ steps.bases }
        ensures { IfOk result (λ input. input
            ≡ record {
              column = column;
              marked = kept_in column (marked_segments (map (λ b. b.now) bases.now));
              steps = steps;
            }) }
    {
        prove!(column.number() < COLUMN_COUNT);
        let mut marked = Vec::new(alloc);
        for layer in 0..steps.bases() {
            add_segments(&mut marked, column, layer, bases[usize::from(layer)])?;
        }
        Ok(TileInput {
            column,
            marked,
            steps,
        })
    }

    /// The input of a column whose segments are among some marked ones, as those of a wider strip: it
    /// takes those with a point in the column.
    pub fn of_marked(
        alloc: Global,
        column: Column,
        marked: &[MarkedSeg],
        steps: &StepList,
    ) -> Result<TileInput, AllocError>
        requires valid { IsInput (record {
          column = column;
          marked = kept_in column (map marked_of marked.now);
          steps = steps.now;
        }) }
        requires few { length (map marked_of marked.now) ≤ segments_max }
        ensures { IfOk result (λ input. input
            ≡ record { column = column; marked = kept_in column (map marked_of marked.now); steps = steps.now }) }
    {
        let marked = kept(alloc, column, marked)?;
        let steps = steps.try_copy(alloc)?;
        Ok(TileInput {
            column,
            marked,
            steps,
        })
    }

    pub fn column(&self) -> Column
        ensures value { result ≡ self.now.column }
        ensures valid { IsInput self.now }
    {
        self.column
    }

    pub fn marked(&self) -> &[MarkedSeg]
        ensures value { map marked_of result.now ≡ self.now.marked }
        ensures few { All (λ m. m.layer < layers_max) result.now }
        ensures fits { length self.now.marked ≤ segments_max }
        ensures valid { IsInput self.now }
    {
        &self.marked
    }

    pub fn steps(&self) -> &StepList
        ensures value { result.now ≡ self.now.steps }
        ensures valid { IsInput self.now }
    {
        &self.steps
    }

    /// An equal input in memory of its own.
    pub fn try_copy(&self, alloc: Global) -> Result<TileInput, AllocError>
        ensures { IfOk result (λ copy. copy ≡ self.now) }
    {
        let mut marked = Vec::with_capacity(alloc, self.marked.len())?;
        for m in &self.marked {
            marked.push(*m)?;
        }
        let steps = self.steps.try_copy(alloc)?;
        Ok(TileInput {
            column: self.column,
            marked,
            steps,
        })
    }
}

impl PartialEq for TileInput {
    ghost use Rattle.overlay_terms.specs.SameInput.{same_input};
    ghost use Rattle.arrange.specs.SameInput.{same_input-laws};

    ghost eq = { same_input };

    ghost laws = { same_input-laws };

    fn eq(&self, other: &TileInput) -> bool {
        let column = self.column == other.column;
        let marked = self.marked == other.marked;
        let steps = self.steps == other.steps;
        // Eager, so that one equation says all: inputs are compared once for each tile.
        column & marked & steps
    }
}

impl Eq for TileInput {
    ghost use Rattle.arrange.specs.SameInput.{same_input-equiv};

    ghost laws = { same_input-equiv };
}

/// Two inputs are `==` exactly where their values are equal.
pub fn same_inputs_are_equal()
    ensures { SameInputsAreEqual }
{}
