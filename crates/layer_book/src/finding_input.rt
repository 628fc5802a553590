//! The input of a tile.
ghost use Rattle.std.specs.Prelude.{◌≡◌, true, None, Some, IfOk, IfErr, map, filter_map};
ghost use Rattle.overlay_terms.specs.Layers.{base_of, layers_in_reach, steps_in_reach};
ghost use Rattle.overlay_terms.specs.Column.{column_numbered};
ghost use Rattle.overlay_terms.specs.Commands.{stands, stands_as_derived};
ghost use Rattle.overlay_terms.specs.Tiles.{input_of};
ghost use Rattle.layer_book.specs.Fault.{RefusedBy};
ghost use Rattle.layer_book.specs.Layer.{IsBook};
ghost use Rattle.layer_book.specs.Question.{marked_layers};
ghost use Rattle.layer_book.specs.TileRefusal.{tile_refusal};

use crate::fault::LayerFault;
use crate::layers::Layers;
use arrange::TileInput;
use layer_expr::name::Name;
use layer_expr::{MAX_LAYERS, StepList};
use plane_base::{BaseLayer, Column};
use std::alloc::{AllocError, Global};

impl Layers {
    /// The input of the tile of a layer and column. A refusal for another reason than memory comes
    /// before any memory is taken.
    pub fn input(&self, alloc: Global, name: &Name, column: u8) -> Result<TileInput, LayerFault>
        ensures ok { IfOk result (λ input. input ≡ input_of self.now name.now column) }
        ensures accepted { IfOk result (λ _. tile_refusal self.now name.now (column_numbered column) ≡ None) }
        ensures refused { IfErr result
            (RefusedBy LayerFault.OutOfMemory (tile_refusal self.now name.now (column_numbered column))) }
    {
        let column = self.tile_column(name, Column::new(u64::from(column)))?;
        Ok(self.input_in_reach(alloc, name, column)?)
    }

    /// The column of a tile that there is; else error 10, 12 or 23, the first that fits. The name is looked up once.
    pub fn tile_column(&self, name: &Name, column: Option<Column>) -> Result<Column, LayerFault>
        ensures ok { IfOk result (λ found. column ≡ Some found) }
        ensures accepted { IfOk result (λ _. tile_refusal self.now name.now column ≡ None) }
        ensures derived { IfOk result (λ _. stands_as_derived self.now name.now ≡ true) }
        ensures refused { IfErr result (λ fault. tile_refusal self.now name.now column ≡ Some fault) }
    {
        let Some(layer) = self.get(name) else {
            return Err(LayerFault::UnknownLayer);
        };
        if !layer.is_derived() {
            return Err(LayerFault::NotDerived);
        }
        match column {
            Some(found) => Ok(found),
            None => Err(LayerFault::BadColumn),
        }
    }

    /// The input of the tile of a derived layer.
    pub fn input_in_reach(
        &self,
        alloc: Global,
        name: &Name,
        column: Column,
    ) -> Result<TileInput, AllocError>
        requires { stands_as_derived self.now name.now ≡ true }
        ensures { IfOk result (λ input. input ≡ input_of self.now name.now column) }
    {
        let wanted = self.reach(name);
        let reached = self.wanted_bases(alloc, &wanted)?;
        let steps = self.wanted_steps(alloc, name, &wanted)?;
        TileInput::of(alloc, column, &reached, steps)
    }

    /// The base layers that a layer reaches, in order: of a base layer itself alone.
    pub fn bases_in_reach<'a>(
        &'a self,
        alloc: Global,
        name: &Name,
    ) -> Result<Vec<&'a BaseLayer>, AllocError>
        requires { stands self.now name.now ≡ true }
        ensures { IfOk result (λ bases. map (λ b. b.now) bases.items
            ≡ map (λ b. b.1) (filter_map base_of (layers_in_reach self.now name.now))) }
    {
        let wanted = self.reach(name);
        let bases = self.wanted_bases(alloc, &wanted)?;
        Ok(bases)
    }

    /// The definitions that a layer reaches, in order: of a base layer none, and its value is its own.
    pub fn steps_in_reach(&self, alloc: Global, name: &Name) -> Result<StepList, AllocError>
        requires { stands self.now name.now ≡ true }
        ensures { IfOk result (λ steps. steps ≡ steps_in_reach self.now name.now) }
    {
        let wanted = self.reach(name);
        self.wanted_steps(alloc, name, &wanted)
    }

    /// The same, where the layers that are reached are marked already.
    fn wanted_steps(
        &self,
        alloc: Global,
        name: &Name,
        wanted: &[bool; MAX_LAYERS],
    ) -> Result<StepList, AllocError>
        requires book { IsBook self.now }
        requires standing { stands self.now name.now ≡ true }
        requires exactly { marked_layers wanted.now self.now ≡ layers_in_reach self.now name.now }
        ensures { IfOk result (λ steps. steps ≡ steps_in_reach self.now name.now) }
    {
        let (layers, count) = self.wanted_layers(name, wanted);
        let steps = StepList::of(alloc, &layers[..count])?;
        Ok(steps)
    }
}
