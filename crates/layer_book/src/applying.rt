//! What a command makes of the layers.
ghost use Rattle.std.specs.Prelude.{◌≡◌, None, IfOk, IfErr};
ghost use Rattle.std.specs.Option.{option_map};
ghost use Rattle.overlay_terms.specs.Commands.{refusal_of, stands, stands_as_base};
ghost use Rattle.overlay_terms.specs.Commands.{stands_as_derived, index_of, applied};
ghost use Rattle.layer_book.specs.Command.{command};
ghost use Rattle.layer_book.specs.Fault.{RefusedBy, fault_of};

use crate::command::Command;
use crate::fault::LayerFault;
use crate::layer::Layer;
use crate::layers::Layers;
use crate::sketch::Sketch;
use layer_expr::name::Name;
use std::alloc::{AllocError, Global};

impl Layers {
    /// The layers after a command. A refusal is the first reason that applies, and comes before any
    /// memory is taken.
    pub fn apply(&self, alloc: Global, change: &Command) -> Result<Layers, LayerFault>
        ensures accepted { IfOk result (λ _. refusal_of self.now (command change.now) ≡ None) }
        ensures ok { IfOk result (λ layers. layers ≡ applied self.now (command change.now)) }
        ensures refused { IfErr result
            (RefusedBy LayerFault.OutOfMemory (option_map fault_of (refusal_of self.now (command change.now)))) }
        ensures memory_last { result ≡ Err LayerFault.OutOfMemory → refusal_of self.now (command change.now) ≡ None }
    {
        if let Some(fault) = self.refusal(change) {
            return Err(fault);
        }
        Ok(self.applied(alloc, change)?)
    }

    /// The layers after a command that is accepted.
    pub fn applied(&self, alloc: Global, change: &Command) -> Result<Layers, AllocError>
        requires { refusal_of self.now (command change.now) ≡ None }
        ensures { IfOk result (λ layers. layers ≡ applied self.now (command change.now)) }
    {
        match change {
            Command::Put(name, rings) => self.with(alloc, name, Layer::Base(rings.clone()?)),
            Command::Define(name, expression) => {
                self.with(alloc, name, Layer::Derived(expression.clone()?))
            }
            Command::Remove(name) => self.without(alloc, name),
        }
    }

    /// Why a command is refused.
    pub fn refusal(&self, change: &Command) -> Option<LayerFault>
        ensures { result ≡ option_map fault_of (refusal_of self.now (command change.now)) }
    {
        Sketch::of(self).refusal(change)
    }

    /// Whether a layer has the name.
    pub fn stands(&self, name: &Name) -> bool
        ensures { result ≡ stands self.now name.now }
    {
        self.find(name).is_some()
    }

    /// The index of the layer with the name, or how many layers there are.
    pub fn index_of(&self, name: &Name) -> usize
        ensures { result ≡ index_of self.now name.now }
    {
        match self.find(name) {
            Some(index) => index,
            None => self.len(),
        }
    }

    /// Whether a base layer has the name.
    pub fn stands_as_base(&self, name: &Name) -> bool
        ensures { result ≡ stands_as_base self.now name.now }
    {
        match self.get(name) {
            Some(layer) => !layer.is_derived(),
            None => false,
        }
    }

    /// Whether a derived layer has the name.
    pub fn stands_as_derived(&self, name: &Name) -> bool
        ensures { result ≡ stands_as_derived self.now name.now }
    {
        match self.get(name) {
            Some(layer) => layer.is_derived(),
            None => false,
        }
    }
}
