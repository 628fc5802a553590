//! Which tiles a command touches: the inputs before and after it are compared by their parts.
ghost use Rattle.std.specs.Prelude.{◌≡◌, ◌<◌, ◌&&◌, true, not, None, map, bytes_eq, IfOk, IfSome};
ghost use Rattle.std.specs.List.{list_any};
ghost use Rattle.overlay_terms.specs.Column.{columns};
ghost use Rattle.overlay_terms.specs.Tiles.{input_of};
ghost use Rattle.overlay_terms.specs.SameInput.{same_input};
ghost use Rattle.overlay_terms.specs.Commands.{applied, is_derived, refusal_of, stands_as_derived};
ghost use Rattle.overlay_terms.specs.Touched.{derived_over, name_of};
ghost use Rattle.layer_book.specs.Command.{command};
ghost use Rattle.layer_book.specs.Layer.{content, IsBook};
ghost use Rattle.layer_book.specs.Question.{at_index};
ghost use Rattle.layer_book.specs.Touching.{AreOfAllOver, touched_columns, touched_rows};

use crate::command::Command;
use crate::comparing::{changed_columns, differing_columns};
use crate::layer::Layer;
use crate::layers::Layers;
use layer_expr::MAX_LAYERS;
use layer_expr::name::Name;
use plane_base::COLUMN_COUNT;
use std::alloc::{AllocError, Global};

/// How many columns a row has: all of them.
pub const COLUMNS: usize = COLUMN_COUNT as usize;

impl Layers {
    /// Which tiles a command touches: for each layer, by index, whether it touches the tile of each
    /// column. The layers that it leaves are handed in.
    pub fn touched_rows(
        &self,
        alloc: Global,
        change: &Command,
        after: &Layers,
    ) -> Result<Vec<[bool; COLUMNS]>, AllocError>
        requires accepted { refusal_of self.now (command change.now) ≡ None }
        requires made { after.now ≡ applied self.now (command change.now) }
        ensures { IfOk result (λ rows. rows.items ≡ touched_rows self.now (command change.now)) }
    {
        let over = self.layers_over(change.name());
        let replaced = self.replaced_columns(change, &over);
        let mut rows = Vec::with_capacity(alloc, self.len())?;
        for i in 0..self.len() {
            if let Some((name, layer)) = self.at(i) {
                let is_over = is_derived_and_marked(layer, &over, i);
                let row = self.touched_columns(alloc, change, is_over, after, name, &replaced)?;
                rows.push(row)?;
            }
        }
        Ok(rows)
    }

    /// In which columns a command touches the tiles of all layers over its name, where it puts rings in the place of
    /// others: those in which the segments differ. They are compared once, and only where a derived layer is marked.
    fn replaced_columns(
        &self,
        change: &Command,
        over: &[bool; MAX_LAYERS],
    ) -> Option<[bool; COLUMNS]>
        ensures { IfSome result (AreOfAllOver self.now (command change.now)) }
    {
        let Command::Put(name, rings) = change else {
            return None;
        };
        match self.get(name) {
            Some(Layer::Base(old)) if self.has_derived_marked(over) => {
                Some(differing_columns(rings.segs(), old.segs()))
            }
            _ => None,
        }
    }

    /// Whether a derived layer is marked. Only time rests on it.
    fn has_derived_marked(&self, marks: &[bool; MAX_LAYERS]) -> bool {
        for i in 0..self.len() {
            if let Some((_, layer)) = self.at(i) {
                if is_derived_and_marked(layer, marks, i) {
                    return true;
                }
            }
        }
        false
    }

    /// In which columns a command touches the tile of a layer, where it is known whether the layer is derived and
    /// reaches the command's name. No other layers are compared.
    fn touched_columns(
        &self,
        alloc: Global,
        change: &Command,
        is_over: bool,
        after: &Layers,
        name: &Name,
        replaced: &Option<[bool; COLUMNS]>,
    ) -> Result<[bool; COLUMNS], AllocError>
        requires book { IsBook self.now }
        requires accepted { refusal_of self.now (command change.now) ≡ None }
        requires made { after.now ≡ applied self.now (command change.now) }
        requires over { is_over ≡ list_any (bytes_eq name.now) (derived_over self.now (name_of (command change.now))) }
        requires replaced { IfSome replaced.now (AreOfAllOver self.now (command change.now)) }
        ensures { IfOk result (λ row. row ≡ touched_columns self.now (command change.now) name.now) }
    {
        if !is_over {
            return Ok([false; COLUMNS]);
        }
        if let Some(row) = replaced {
            return Ok(*row);
        }
        if !after.stands_as_derived(name) {
            return Ok([true; COLUMNS]);
        }
        let row = self.changed_columns(alloc, after, name)?;
        Ok(row)
    }

    /// In which columns the tile of a derived layer has another input than among other layers.
    fn changed_columns(
        &self,
        alloc: Global,
        after: &Layers,
        name: &Name,
    ) -> Result<[bool; COLUMNS], AllocError>
        requires before { stands_as_derived self.now name.now ≡ true }
        requires afterwards { stands_as_derived after.now name.now ≡ true }
        ensures { IfOk result (λ row. row
            ≡ map (λ k. not (same_input (input_of after.now name.now k) (input_of self.now name.now k))) columns) }
    {
        let old_steps = self.steps_in_reach(alloc, name)?;
        let new_steps = after.steps_in_reach(alloc, name)?;
        if !(new_steps == old_steps) {
            return Ok([true; COLUMNS]);
        }
        let old_bases = self.bases_in_reach(alloc, name)?;
        let new_bases = after.bases_in_reach(alloc, name)?;
        Ok(changed_columns(&new_bases, &old_bases))
    }
}

/// Whether a layer is derived and the mark at its index is set.
fn is_derived_and_marked(layer: &Layer, marks: &[bool; MAX_LAYERS], i: usize) -> bool
    requires { i < MAX_LAYERS }
    ensures { result ≡ (at_index marks.now i && is_derived (content layer.now)) }
{
    marks[i] && layer.is_derived()
}
