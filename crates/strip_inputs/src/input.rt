//! The input of a strip.
ghost use Rattle.std.specs.Prelude.{◌≡◌, ◌≤◌, ℕ, map, length, IfOk};
ghost use Rattle.overlay_terms.specs.Layers.{marked_segments};
ghost use Rattle.arrange.specs.Marked.{kept_in, marked_of, segments_max};
ghost use Rattle.crossing_sweep.specs.StripInput.{part, strip_of, IsStripInput};
ghost use Rattle.strip_inputs.specs.Strips.{kept_in_strip, IsColumnOf};

use crate::gathering::add_segments;
use arrange::{MarkedSeg, TileInput};
use crossing_sweep::{PassInput, Strip};
use layer_expr::StepList;
use plane_base::{BaseLayer, Column};
use std::alloc::{AllocError, Global};
use std::marker::Model;
use std::sync::Arc;

/// The segments of the base layers in reach that have a point in a strip of neighbouring columns, each with the number
/// of its layer, and the definitions in reach. Who shares it copies neither.
#[derive(Debug, Drop)]
pub struct StripInput {
    strip: Strip,
    marked: Arc<Vec<MarkedSeg>>,
    steps: Arc<StepList>,
}

impl Model for StripInput {
    ghost use Rattle.std.specs.Prelude.{◌≤◌, length, map};
    ghost use Rattle.arrange.specs.Marked.{marked_of, segments_max};
    ghost use Rattle.crossing_sweep.specs.StripInput as terms;
    ghost use Rattle.crossing_sweep.specs.StripInput.{strip_input_code, IsStripInput};

    ghost Value = { terms.StripInput };

    ghost coded = { strip_input_code };

    ghost view = { λ i. record { strip = i.strip; marked = map marked_of i.marked.value.items; steps = i.steps.value } };

    ghost invariant = { λ i. IsStripInput
        (record { strip = i.strip; marked = map marked_of i.marked.value.items; steps = i.steps.value })
        × (length (map marked_of i.marked.value.items) ≤ segments_max) };
}

impl StripInput {
    /// The input of a strip over as many base layers as the steps know.
    pub fn of(
        alloc: Global,
        strip: Strip,
        bases: &[&BaseLayer],
        steps: StepList,
    ) -> Result<StripInput, AllocError>
        requires { length bases.now ≡ steps.bases }
        ensures ok { IfOk result (λ input. input
            ≡ record {
              strip = strip;
              marked = kept_in_strip strip (marked_segments (map (λ b. b.now) bases.now));
              steps = steps;
            }) }
        ensures strip { IfOk result (λ input. input.strip ≡ strip) }
        // The part of each column is what `TileInput::of` gathers there.
        ensures part { IfOk result (λ input. (k : ℕ) → strip.first ≤ k → k ≤ strip.last
            → part input k ≡ record {
              column = k;
              marked = kept_in k (marked_segments (map (λ b. b.now) bases.now));
              steps = steps;
            }) }
    {
        // The strip's columns are in order, and there are so many: the type rests on that.
        let _ = strip.last().number();
        let mut marked = Vec::new(alloc);
        for layer in 0..steps.bases() {
            add_segments(&mut marked, strip, layer, bases[usize::from(layer)])?;
        }
        let input = StripInput::by(alloc, strip, marked, steps)?;
        Ok(input)
    }

    /// The input of its parts.
    fn by(
        alloc: Global,
        strip: Strip,
        marked: Vec<MarkedSeg>,
        steps: StepList,
    ) -> Result<StripInput, AllocError>
        requires { IsStripInput (record { strip = strip; marked = map marked_of marked.items; steps = steps })
            × (length (map marked_of marked.items) ≤ segments_max) }
        ensures { IfOk result (λ input. input
            ≡ record { strip = strip; marked = map marked_of marked.items; steps = steps }) }
    {
        let marked = Arc::new(alloc, marked)?;
        let steps = Arc::new(alloc, steps)?;
        Ok(StripInput {
            strip,
            marked,
            steps,
        })
    }

    /// The input of a tile as that of a strip of one column.
    pub fn of_column(alloc: Global, input: &TileInput) -> Result<StripInput, AllocError>
        ensures { IfOk result (λ own. own ≡ strip_of input.now) }
    {
        let column = input.column();
        let marked = copied(alloc, input.marked())?;
        let steps = input.steps().try_copy(alloc)?;
        let strip = Strip::new(column, column);
        let own = StripInput::by(alloc, strip, marked, steps)?;
        Ok(own)
    }

    /// The same input once more, for another owner. Nothing is copied.
    pub fn share(&self) -> Result<StripInput, AllocError>
        ensures { IfOk result (λ copy. copy ≡ self.now) }
    {
        Ok(StripInput {
            strip: self.strip,
            marked: self.marked.clone()?,
            steps: self.steps.clone()?,
        })
    }

    pub fn strip(&self) -> Strip
        ensures value { result ≡ self.now.strip }
        ensures valid { IsStripInput self.now }
    {
        self.strip
    }

    /// The same, lent for a pass over the strip.
    pub fn pass(&self) -> PassInput<'_>
        ensures { result ≡ self.now }
    {
        PassInput::of_strip(self.strip, &self.marked, &self.steps)
    }

    /// The input of the tile of one of its columns, in memory of its own.
    pub fn column_input(&self, alloc: Global, column: Column) -> Result<TileInput, AllocError>
        requires { IsColumnOf self.now column }
        ensures { IfOk result (λ input. input ≡ part self.now column) }
    {
        TileInput::of_marked(alloc, column, &self.marked, &self.steps)
    }
}

/// The same marked segments in memory of their own.
fn copied(alloc: Global, marked: &[MarkedSeg]) -> Result<Vec<MarkedSeg>, AllocError>
    ensures { IfOk result (λ copy. copy.items ≡ marked.now) }
{
    let mut copy = Vec::with_capacity(alloc, marked.len())?;
    for one in marked {
        copy.push(*one)?;
    }
    Ok(copy)
}
