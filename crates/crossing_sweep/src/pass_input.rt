//! What a pass over a strip is made of.
ghost use Rattle.std.specs.Prelude.{◌≡◌, ◌<◌, ◌≤◌, All, map, length};
ghost use Rattle.overlay_terms.specs.TileLaws.{IsInput};
ghost use Rattle.overlay_terms.specs.Layers.{layers_max};
ghost use Rattle.arrange.specs.Marked.{marked_of, segments_max};
ghost use Rattle.crossing_sweep.specs.StripInput.{IsStripInput, strip_of};

use crate::strip::Strip;
use arrange::{MarkedSeg, TileInput};
use layer_expr::StepList;
use std::marker::Model;

/// A strip of neighbouring columns, segments, each with the number of its layer, and the definitions in reach, lent
/// for a pass. What is found there is found of these segments, whichever they are.
#[derive(Drop)]
pub struct PassInput<'a> {
    strip: Strip,
    marked: &'a [MarkedSeg],
    steps: &'a StepList,
}

impl<'a> Model for PassInput<'a> {
    ghost use Rattle.std.specs.Prelude.{◌≤◌, length, map};
    ghost use Rattle.arrange.specs.Marked.{marked_of, segments_max};
    ghost use Rattle.crossing_sweep.specs.StripInput.{StripInput, strip_input_code, IsStripInput};

    ghost Value = { StripInput };

    ghost coded = { strip_input_code };

    ghost view = { λ i. record { strip = i.strip; marked = map marked_of i.marked.now; steps = i.steps.now } };

    ghost invariant = { λ i. IsStripInput
        (record { strip = i.strip; marked = map marked_of i.marked.now; steps = i.steps.now })
        × (length (map marked_of i.marked.now) ≤ segments_max) };
}

impl<'a> PassInput<'a> {
    /// The input of a tile, whose strip is one column.
    pub fn of_column(input: &'a TileInput) -> PassInput<'a>
        ensures value { result ≡ strip_of input.now }
        ensures valid { IsInput input.now }
    {
        let column = input.column();
        PassInput {
            strip: Strip::new(column, column),
            marked: input.marked(),
            steps: input.steps(),
        }
    }

    /// The input of a strip. It has what the tiles of its columns are made of where the segments are all in reach that
    /// have a point there, perhaps with others.
    pub fn of_strip(strip: Strip, marked: &'a [MarkedSeg], steps: &'a StepList) -> PassInput<'a>
        requires valid { IsStripInput (record { strip = strip; marked = map marked_of marked.now; steps = steps.now }) }
        requires few { length (map marked_of marked.now) ≤ segments_max }
        ensures { result ≡ record { strip = strip; marked = map marked_of marked.now; steps = steps.now } }
    {
        PassInput {
            strip,
            marked,
            steps,
        }
    }

    pub fn strip(&self) -> Strip
        ensures value { result ≡ self.now.strip }
        ensures valid { IsStripInput self.now }
    {
        self.strip
    }

    pub fn marked(&self) -> &[MarkedSeg]
        ensures value { map marked_of result.now ≡ self.now.marked }
        ensures few { All (λ m. m.layer < layers_max) result.now }
        ensures fits { length self.now.marked ≤ segments_max }
        ensures valid { IsStripInput self.now }
    {
        self.marked
    }

    pub fn steps(&self) -> &StepList
        ensures value { result.now ≡ self.now.steps }
        ensures valid { IsStripInput self.now }
    {
        self.steps
    }
}
